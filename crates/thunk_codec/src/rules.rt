//! The rules that the parts of a thunk keep.

ghost use Rattle.std.specs.Prelude.{◌≡◌, ◌&&◌, ◌||◌, not, map, nat_le};
ghost use Rattle.std.specs.List.{list_all};
ghost use Rattle.std.specs.Ordering.{nat_cmp, is_lt};
ghost use Rattle.std.specs.Cmp.Lexicographic.{slice_cmp};
ghost use Rattle.object_name.specs.Kind.{max_outputs};
ghost use Rattle.text_lines.specs.Among.{is_among};
ghost use Rattle.thunk_codec.specs.Raw.{parts_of};
ghost use Rattle.thunk_codec.specs.Thunk.{keeps_numbers, keeps_bytes, keeps_orders, has_no_zero, is_letter, is_digit, is_identifier, is_strictly_increasing, are_distinct};

use crate::parts::RawParts;
use crate::path::Path;
use object_name::{Bytes, MAX_OUTPUTS};

/// Whether no byte is zero.
fn has_no_zero(bytes: &[u8]) -> bool
    ensures { result ≡ has_no_zero bytes.now }
{
    bytes.iter().all(|byte| *byte != 0)
}

/// Whether a byte may begin an identifier: an ASCII letter or `_`.
pub fn is_letter(byte: u8) -> bool
    ensures { result ≡ is_letter byte }
{
    byte.is_ascii_uppercase() || byte.is_ascii_lowercase() || byte == b'_'
}

/// Whether a byte may stand in an identifier after the first: an ASCII letter, a digit or `_`.
pub fn is_letter_or_digit(byte: u8) -> bool
    ensures { result ≡ (is_letter byte || is_digit byte) }
{
    is_letter(byte) || (48 <= byte && byte <= 57)
}

/// Whether all bytes may stand in an identifier after the first.
fn are_letters_or_digits(text: &[u8]) -> bool
    ensures { result ≡ list_all (λ byte. is_letter byte || is_digit byte) text.now }
{
    text.iter().all(|byte| is_letter_or_digit(*byte))
}

/// Whether a text is a letter or `_`, and then letters, digits and `_`, in ASCII.
pub fn is_identifier(text: &[u8]) -> bool
    ensures { result ≡ is_identifier text.now }
{
    match text {
        [] => false,
        [first, others @ ..] => is_letter(*first) && are_letters_or_digits(others),
    }
}

/// Whether a text is before another, byte by byte.
pub fn is_before(first: &[u8], second: &[u8]) -> bool
    ensures { result ≡ is_lt (slice_cmp nat_cmp first.now second.now) }
{
    first.cmp(second).is_lt()
}

/// Whether each text is before the next.
pub fn are_sorted<T>(items: &[(Bytes, T)]) -> bool
    ensures { result ≡ is_strictly_increasing (map (λ item. item.0) items.now) }
{
    let mut rest = items;
    'items: while let [first, others @ ..] = rest {
        let Some(second) = others.first() else {
            return true;
        };
        if !is_before(first.0.as_slice(), second.0.as_slice()) {
            return false;
        }
        rest = others;
    }
    true
}

/// Whether each path is before the next.
pub fn paths_are_sorted<T>(inputs: &[(Path, T)]) -> bool
    ensures { result ≡ is_strictly_increasing (map (λ input. input.0) inputs.now) }
{
    let mut rest = inputs;
    'inputs: while let [first, others @ ..] = rest {
        let Some(second) = others.first() else {
            return true;
        };
        if !is_before(first.0.text(), second.0.text()) {
            return false;
        }
        rest = others;
    }
    true
}

/// Whether a text is one of some.
pub fn is_among(texts: &[Bytes], text: &[u8]) -> bool
    ensures { result ≡ is_among texts.now text.now }
{
    texts.iter().any(|other| text == other.as_slice())
}

/// Whether no text is repeated.
fn are_distinct(texts: &[Bytes]) -> bool
    ensures { result ≡ are_distinct texts.now }
{
    let mut rest = texts;
    'texts: while let [first, others @ ..] = rest {
        if is_among(others, first.as_slice()) {
            return false;
        }
        rest = others;
    }
    true
}

/// Whether a path is one of some.
fn is_path_among(paths: &[Path], path: &Path) -> bool
    ensures { result ≡ is_among paths.now path.now }
{
    paths.iter().any(|other| path == other)
}

/// Whether no path is repeated.
pub fn paths_are_distinct(paths: &[Path]) -> bool
    ensures { result ≡ are_distinct paths.now }
{
    let mut rest = paths;
    'paths: while let [first, others @ ..] = rest {
        if is_path_among(others, first) {
            return false;
        }
        rest = others;
    }
    true
}

/// Whether each key is an identifier.
fn have_identifiers(envs: &[(Bytes, Bytes)]) -> bool
    ensures { result ≡ list_all (λ env. is_identifier env.0) envs.now }
{
    envs.iter().all(|env| is_identifier(env.0.as_slice()))
}

/// Whether no value has a zero byte.
fn have_no_zero(envs: &[(Bytes, Bytes)]) -> bool
    ensures { result ≡ list_all (λ env. has_no_zero env.1) envs.now }
{
    envs.iter().all(|env| has_no_zero(env.1.as_slice()))
}

/// Whether no argument has a zero byte.
fn args_have_no_zero(args: &[Bytes]) -> bool
    ensures { result ≡ list_all has_no_zero args.now }
{
    args.iter().all(|arg| has_no_zero(arg.as_slice()))
}

/// Whether there are few enough inputs, and as many outputs as a thunk has.
pub fn keep_numbers(inputs: usize, outputs: usize) -> bool
    ensures { result ≡ (nat_le inputs 4096 && (nat_le 1 outputs && nat_le outputs max_outputs)) }
{
    inputs <= 4096 && (1 <= outputs && outputs <= MAX_OUTPUTS)
}

/// Whether arguments and an environment have the bytes that they may have.
pub fn keep_bytes(args: &[Bytes], envs: &[(Bytes, Bytes)]) -> bool
    ensures { result ≡ (list_all has_no_zero args.now && (list_all (λ env. is_identifier env.0) envs.now && list_all (λ env. has_no_zero env.1) envs.now)) }
{
    args_have_no_zero(args) && (have_identifiers(envs) && have_no_zero(envs))
}

/// Whether keys and inputs are sorted, and no output is repeated.
pub fn keep_orders<T>(envs: &[(Bytes, Bytes)], inputs: &[(Path, T)], outputs: &[Path]) -> bool
    ensures { result ≡ (is_strictly_increasing (map (λ env. env.0) envs.now) && (is_strictly_increasing (map (λ input. input.0) inputs.now) && are_distinct outputs.now)) }
{
    are_sorted(envs) && (paths_are_sorted(inputs) && paths_are_distinct(outputs))
}

/// The same of the parts of a text.
pub fn keeps_numbers(raw: &RawParts) -> bool
    ensures { result ≡ keeps_numbers (parts_of raw.now) }
{
    keep_numbers(raw.inputs.len(), raw.outputs.len())
}

/// The same of the parts of a text.
pub fn keeps_bytes(raw: &RawParts) -> bool
    ensures { result ≡ keeps_bytes (parts_of raw.now) }
{
    keep_bytes(raw.args.as_slice(), raw.envs.as_slice())
}

/// The same of the parts of a text.
pub fn keeps_orders(raw: &RawParts) -> bool
    ensures { result ≡ keeps_orders (parts_of raw.now) }
{
    are_sorted(raw.envs.as_slice())
        && (are_sorted(raw.inputs.as_slice()) && are_distinct(raw.outputs.as_slice()))
}
