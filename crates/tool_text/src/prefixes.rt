//! The longest prefix of a text whose bytes are all of one kind, and what comes after it.

ghost use Rattle.std.specs.Prelude.{◌≡◌, not};
ghost use Rattle.std.specs.List.{take_while, prefix_len};
ghost use Rattle.tool_text.specs.Directive.{after_while, is_alphabetic, is_word_byte};

use thunk_codec::is_letter_or_digit;

/// How many letters stand at the beginning.
fn letters_len(text: &[u8]) -> usize
    ensures { result ≡ prefix_len is_alphabetic text.now }
{
    for (i, byte) in text.iter().enumerate() {
        if !byte.is_ascii_alphabetic() {
            return i;
        }
    }
    text.len()
}

/// How many letters, digits and `_` stand at the beginning.
fn word_len(text: &[u8]) -> usize
    ensures { result ≡ prefix_len is_word_byte text.now }
{
    for (i, byte) in text.iter().enumerate() {
        if !is_letter_or_digit(*byte) {
            return i;
        }
    }
    text.len()
}

/// How many bytes come before the first letter, digit or `_`.
fn other_len(text: &[u8]) -> usize
    ensures { result ≡ prefix_len (λ byte. not (is_word_byte byte)) text.now }
{
    for (i, byte) in text.iter().enumerate() {
        if is_letter_or_digit(*byte) {
            return i;
        }
    }
    text.len()
}

/// The letters at the beginning, and what comes after them.
#[tactic(auto, using(crate::proofs::PrefixLengths::run_fits, crate::proofs::PrefixLengths::rest_after))]
pub(crate) fn split_letters(text: &[u8]) -> (&[u8], &[u8])
    ensures run { result.0.now ≡ take_while is_alphabetic text.now }
    ensures rest { result.1.now ≡ after_while is_alphabetic text.now }
{
    text.split_at(letters_len(text))
}

/// The letters, digits and `_` at the beginning, and what comes after them.
#[tactic(auto, using(crate::proofs::PrefixLengths::run_fits, crate::proofs::PrefixLengths::rest_after))]
pub(crate) fn split_word(text: &[u8]) -> (&[u8], &[u8])
    ensures run { result.0.now ≡ take_while is_word_byte text.now }
    ensures rest { result.1.now ≡ after_while is_word_byte text.now }
{
    text.split_at(word_len(text))
}

/// What comes before the first letter, digit or `_`, and the rest.
#[tactic(auto, using(crate::proofs::PrefixLengths::run_fits, crate::proofs::PrefixLengths::rest_after))]
pub(crate) fn split_other(text: &[u8]) -> (&[u8], &[u8])
    ensures run { result.0.now ≡ take_while (λ byte. not (is_word_byte byte)) text.now }
    ensures rest { result.1.now ≡ after_while (λ byte. not (is_word_byte byte)) text.now }
{
    text.split_at(other_len(text))
}
