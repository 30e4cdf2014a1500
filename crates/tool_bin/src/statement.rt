//! The statements of the assembler's language.

ghost use Rattle.std.specs.Prelude.{◌≡◌, IfOk};
ghost use Rattle.text_lines.specs.Blanks.{words_of};
ghost use Rattle.tool_bin.specs.Assemble.{labelled, label_of, located, location_of, code_of, statement_of};

use crate::instruction::{Instruction, read_instruction};
use object_name::{Bytes, read_number};
use std::alloc::{AllocError, Global};
use text_lines::next_word;
use thunk_codec::is_identifier;

/// A statement, which is a line.
#[derive(Debug, Drop)]
pub(crate) enum Statement {
    Label(Bytes),
    Location(u64),
    Code(Instruction),
}

/// A label of a word that is an identifier and a colon.
fn labelled(alloc: Global, word: &[u8]) -> Result<Option<Statement>, AllocError>
    ensures { IfOk result (λ statement. statement ≡ labelled word.now) }
{
    if !word.ends_with(b":") {
        return Ok(None);
    }
    let name = &word[..word.len() - 1];
    if !is_identifier(name) {
        return Ok(None);
    }
    Ok(Some(Statement::Label(Bytes::from_slice(alloc, name)?)))
}

/// A label, `NAME:`.
fn label(alloc: Global, line: &[u8]) -> Result<Option<Statement>, AllocError>
    ensures { IfOk result (λ statement. statement ≡ label_of (words_of line.now)) }
{
    let Some((word, rest)) = next_word(line) else {
        return Ok(None);
    };
    if next_word(rest).is_some() {
        return Ok(None);
    }
    labelled(alloc, word)
}

/// A location of these two words.
fn located(word: &[u8], text: &[u8]) -> Option<Statement>
    ensures { result ≡ located word.now text.now }
{
    if word != b".loc".as_slice() {
        return None;
    }
    let number = read_number(text)?;
    Some(Statement::Location(number))
}

/// A location, `.loc N`.
fn location(line: &[u8]) -> Option<Statement>
    ensures { result ≡ location_of (words_of line.now) }
{
    let (word, rest) = next_word(line)?;
    let (text, rest) = next_word(rest)?;
    if next_word(rest).is_some() {
        return None;
    }
    located(word, text)
}

/// An instruction.
fn code(alloc: Global, line: &[u8]) -> Result<Option<Statement>, AllocError>
    ensures { IfOk result (λ statement. statement ≡ code_of (words_of line.now)) }
{
    let Some(instruction) = read_instruction(alloc, line)? else {
        return Ok(None);
    };
    Ok(Some(Statement::Code(instruction)))
}

/// The statement of a line.
pub(crate) fn read_statement(alloc: Global, line: &[u8]) -> Result<Option<Statement>, AllocError>
    ensures { IfOk result (λ statement. statement ≡ statement_of (words_of line.now)) }
{
    if let Some(statement) = label(alloc, line)? {
        return Ok(Some(statement));
    }
    if let Some(statement) = location(line) {
        return Ok(Some(statement));
    }
    code(alloc, line)
}
