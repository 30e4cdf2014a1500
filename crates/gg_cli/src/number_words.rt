//! Numbers within a range, by their words.

ghost use Rattle.std.specs.Prelude.{◌≡◌, ◌≤◌, IfSome};
ghost use Rattle.gg_cli.specs.NumberWords.{number_within};

use object_name::read_number;

/// The number that a word is in canonical decimal form, if it is one from the least to the most.
pub(crate) fn read_within(word: &[u8], least: u32, most: u32) -> Option<u32>
    ensures exact { result ≡ number_within least most word.now }
    ensures limits { IfSome result (λ number. (least ≤ number) × (number ≤ most)) }
{
    let number = read_number(word)?;
    if number < u64::from(least) {
        return None;
    }
    if number > u64::from(most) {
        return None;
    }
    Some(number as u32)
}
