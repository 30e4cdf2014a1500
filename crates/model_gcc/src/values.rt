//! What stands behind the options, and the operands by their suffixes.

ghost use Rattle.std.specs.Prelude.{◌≡◌, ◌++◌, None, IfOk};
ghost use Rattle.std.specs.List.{list_all};
ghost use Rattle.thunk_codec.specs.Thunk.{has_no_zero};
ghost use Rattle.model_gcc.specs.Values.{after_first, after_option, is_library_byte, library_name_of, macro_name_of, definition_by, definition_of, passed_word_of, operand_at};

use crate::gcc_plan::Operand;
use object_name::Bytes;
use std::alloc::{AllocError, Global};
use text_lines::split_at_byte;
use thunk_codec::{Path, is_identifier};

/// The greatest length of a library's name.
const MAX_LIBRARY_NAME: usize = 1000;

/// Whether a library's name may have a byte.
fn is_library_byte(byte: u8) -> bool
    ensures { result ≡ is_library_byte byte }
{
    33 <= byte && byte <= 126 && byte != b'/'
}

/// Whether it may have all bytes of a text.
fn are_library_bytes(text: &[u8]) -> bool
    ensures { result ≡ list_all is_library_byte text.now }
{
    text.iter().all(|byte| is_library_byte(*byte))
}

/// The name of a library, if a value is one.
#[tactic(auto, unfolding(crate::specs::Values::library_name_of))]
pub(crate) fn library_name(alloc: Global, name: &[u8]) -> Result<Option<Bytes>, AllocError>
    ensures { IfOk result (λ found. found ≡ library_name_of name.now) }
{
    if name.is_empty() {
        return Ok(None);
    }
    if name.len() > MAX_LIBRARY_NAME {
        return Ok(None);
    }
    if !are_library_bytes(name) {
        return Ok(None);
    }
    Ok(Some(Bytes::from_slice(alloc, name)?))
}

/// The name of a macro, if a value is one.
#[tactic(auto, unfolding(crate::specs::Values::macro_name_of))]
pub(crate) fn macro_name(alloc: Global, name: &[u8]) -> Result<Option<Bytes>, AllocError>
    ensures { IfOk result (λ found. found ≡ macro_name_of name.now) }
{
    if !is_identifier(name) {
        return Ok(None);
    }
    Ok(Some(Bytes::from_slice(alloc, name)?))
}

/// Whether no byte is zero.
fn has_no_zero(bytes: &[u8]) -> bool
    ensures { result ≡ has_no_zero bytes.now }
{
    bytes.iter().all(|byte| *byte != 0)
}

/// Two texts joined.
pub(crate) fn joined(alloc: Global, first: &[u8], second: &[u8]) -> Result<Bytes, AllocError>
    ensures { IfOk result (λ text. text ≡ first.now ++ second.now) }
{
    let mut text = Bytes::from_slice(alloc, first)?;
    text.append(second)?;
    Ok(text)
}

/// The definition of a macro without a text, which stands for 1.
fn definition_of_1(alloc: Global, name: &[u8]) -> Result<Option<Bytes>, AllocError>
    ensures { IfOk result (λ found. found ≡ definition_by name.now None) }
{
    if !is_identifier(name) {
        return Ok(None);
    }
    Ok(Some(joined(alloc, name, b"=1")?))
}

/// The definition of a macro, if a value is one.
#[tactic(auto, unfolding(crate::specs::Values::definition_of))]
pub(crate) fn definition(alloc: Global, value: &[u8]) -> Result<Option<Bytes>, AllocError>
    ensures { IfOk result (λ found. found ≡ definition_of value.now) }
{
    let Some((name, text)) = split_at_byte(b'=', value) else {
        return definition_of_1(alloc, value);
    };
    if !is_identifier(name) {
        return Ok(None);
    }
    if !has_no_zero(text) {
        return Ok(None);
    }
    Ok(Some(Bytes::from_slice(alloc, value)?))
}

/// A word that is passed on, if it can be.
#[tactic(auto, unfolding(crate::specs::Values::passed_word_of))]
pub(crate) fn passed_word(alloc: Global, word: &[u8]) -> Result<Option<Bytes>, AllocError>
    ensures { IfOk result (λ found. found ≡ passed_word_of word.now) }
{
    if !has_no_zero(word) {
        return Ok(None);
    }
    Ok(Some(Bytes::from_slice(alloc, word)?))
}

/// What comes after the first byte.
fn after_byte(text: &[u8]) -> &[u8]
    ensures { result.now ≡ after_first text.now }
{
    match text.split_first() {
        Some((_, others)) => others,
        None => text,
    }
}

/// What comes after an option of two bytes.
#[tactic(auto, unfolding(crate::specs::Values::after_option))]
pub(crate) fn after_option(word: &[u8]) -> &[u8]
    ensures { result.now ≡ after_option word.now }
{
    after_byte(after_byte(word))
}

/// The file at a path, by its suffix.
#[tactic(auto, unfolding(crate::specs::Values::operand_at))]
pub(crate) fn operand_at(path: Path) -> Operand
    ensures { result ≡ operand_at path }
{
    if path.text().ends_with(b".c") {
        return Operand::Source(path);
    }
    if path.text().ends_with(b".i") {
        return Operand::Preprocessed(path);
    }
    if path.text().ends_with(b".s") {
        return Operand::Assembly(path);
    }
    if path.text().ends_with(b".S") {
        return Operand::AssemblySource(path);
    }
    Operand::Other(path)
}
