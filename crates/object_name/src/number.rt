//! Canonical decimal numbers: `0`, or digits that don't begin with `0`.

ghost use Rattle.std.specs.Prelude.{◌≡◌, ◌++◌, ◌<◌, ◌^◌, ℕ, Some, IsTrue, IfSome, OnOk, OnErr, decimal};
ghost use Rattle.std.specs.Str.{all_ascii_digits};
ghost use Rattle.object_name.specs.Number.{digits_value, number_of};

use crate::bytes::Bytes;
use itoa::Buffer;
use std::alloc::AllocError;

/// The value of a text of digits, where it is below 2^64.
fn read_digits(text: &[u8]) -> Option<u64>
    ensures fits { IfSome result (λ n. n < 2 ^ 64) }
    ensures found { IfSome result (λ n. IsTrue (all_ascii_digits text.now) × (n ≡ digits_value text.now)) }
    ensures only { IsTrue (all_ascii_digits text.now) → digits_value text.now < 2 ^ 64 → result ≡ Some (digits_value text.now) }
{
    let mut value: u64 = 0;
    'digits: for byte in text {
        if !byte.is_ascii_digit() {
            return None;
        }
        value = value.checked_mul(10)?.checked_add(u64::from(*byte - b'0'))?;
    }
    Some(value)
}

/// The number below 2^64 that a text is the canonical decimal form of.
pub fn read_number(text: &[u8]) -> Option<u64>
    ensures found { IfSome result (λ n. text.now ≡ decimal n) }
    ensures only { (n : ℕ) → n < 2 ^ 64 → text.now ≡ decimal n → result ≡ Some n }
    ensures exact { result ≡ number_of text.now }
{
    if text.is_empty() {
        return None;
    }
    if text[0] == b'0' && text.len() > 1 {
        return None;
    }
    read_digits(text)
}

/// Appends the canonical decimal form of a number.
pub fn write_number(value: u64, out: &mut Bytes) -> Result<(), AllocError>
    ensures ok { OnOk result (out.new ≡ out.old ++ decimal value) }
    ensures err { OnErr result (out.new ≡ out.old) }
{
    out.append(Buffer::new().format(value).as_bytes())
}
