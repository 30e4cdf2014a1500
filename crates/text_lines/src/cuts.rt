//! Texts cut at a prefix, at a byte, or before a line feed at the end.

ghost use Rattle.std.specs.Prelude.{◌≡◌};
ghost use Rattle.std.specs.Option.{option_copied, option_map};
ghost use Rattle.text_lines.specs.Cuts.{before_feed, split_at_byte, strip_prefix};

/// What comes after a prefix. None where the text does not begin with it.
pub fn strip_prefix<'a>(prefix: &[u8], text: &'a [u8]) -> Option<&'a [u8]>
    ensures { option_copied result ≡ strip_prefix prefix.now text.now }
{
    if !text.starts_with(prefix) {
        return None;
    }
    Some(&text[prefix.len()..])
}

/// What comes before a line feed at the end. None where the text does not end with one.
pub fn before_feed(text: &[u8]) -> Option<&[u8]>
    ensures { option_copied result ≡ before_feed text.now }
{
    if !text.ends_with(b"\n") {
        return None;
    }
    Some(&text[..text.len() - 1])
}

/// The bytes before the first stop byte, and those after it. None where the text has no stop byte.
pub fn split_at_byte(stop: u8, text: &[u8]) -> Option<(&[u8], &[u8])>
    ensures { option_map (λ cut. (cut.0.now, cut.1.now)) result ≡ split_at_byte stop text.now }
{
    for (i, byte) in text.iter().enumerate() {
        if *byte == stop {
            return Some((&text[..i], &text[i + 1..]));
        }
    }
    None
}
