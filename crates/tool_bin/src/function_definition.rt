//! Definitions of functions, as the compiler reads them.

ghost use Rattle.std.specs.Prelude.{◌≡◌, [], Some, None, IfOk, MatchOption};
ghost use Rattle.text_lines.specs.Blanks.{words_of};
ghost use Rattle.tool_bin.specs.Compile.{is_function_name, operator_of, function_call_of, instruction_of_word, code_with, head_of, definition_of};

use crate::instruction::Instruction;
use object_name::{Bytes, Many, read_number};
use std::alloc::{AllocError, Global};
use text_lines::next_word;
use thunk_codec::is_identifier;

/// A function: its name, the number of its line, and what its words do.
#[derive(Debug, Drop)]
pub(crate) struct FunctionDefinition {
    pub(crate) name: Bytes,
    pub(crate) number: u64,
    pub(crate) code: Many<Instruction>,
}

/// Whether a text is an identifier but for `fn` and `print`.
#[tactic(auto, unfolding(crate::specs::Compile::is_function_name))]
fn is_function_name(name: &[u8]) -> bool
    ensures { result ≡ is_function_name name.now }
{
    if !is_identifier(name) {
        return false;
    }
    if name == b"fn".as_slice() {
        return false;
    }
    name != b"print".as_slice()
}

/// An operator, or `print`.
#[tactic(auto, unfolding(crate::specs::Compile::operator_of))]
fn operator(word: &[u8]) -> Option<Instruction>
    ensures { result ≡ operator_of word.now }
{
    if word == b"+".as_slice() {
        return Some(Instruction::Add);
    }
    if word == b"-".as_slice() {
        return Some(Instruction::Subtract);
    }
    if word == b"*".as_slice() {
        return Some(Instruction::Multiply);
    }
    if word == b"print".as_slice() {
        return Some(Instruction::Print);
    }
    None
}

/// A call of a function.
fn function_call(alloc: Global, word: &[u8]) -> Result<Option<Instruction>, AllocError>
    ensures { IfOk result (λ instruction. instruction ≡ function_call_of word.now) }
{
    if !is_function_name(word) {
        return Ok(None);
    }
    Ok(Some(Instruction::Call(Bytes::from_slice(alloc, word)?)))
}

/// What a word does: a number, an operator or a call.
fn read_word(alloc: Global, word: &[u8]) -> Result<Option<Instruction>, AllocError>
    ensures { IfOk result (λ instruction. instruction ≡ instruction_of_word word.now) }
{
    if let Some(number) = read_number(word) {
        return Ok(Some(Instruction::Push(number)));
    }
    if let Some(instruction) = operator(word) {
        return Ok(Some(instruction));
    }
    function_call(alloc, word)
}

/// What the words of a text do.
fn read_code(alloc: Global, text: &[u8]) -> Result<Option<Many<Instruction>>, AllocError>
    ensures { IfOk result (λ code. code ≡ code_with [] (words_of text.now)) }
{
    let mut code = Many::new(alloc);
    let mut rest = text;
    'words: while let Some((word, after)) = next_word(rest) {
        let Some(instruction) = read_word(alloc, word)? else {
            return Ok(None);
        };
        code.push(instruction)?;
        rest = after;
    }
    Ok(Some(code))
}

/// A function's name and the text after its colon, on a line that defines one.
fn read_head(line: &[u8]) -> Option<(&[u8], &[u8])>
    ensures { MatchOption result (head_of (words_of line.now) ≡ None)
        (λ head. head_of (words_of line.now) ≡ Some (head.0.now, words_of head.1.now)) }
{
    let (kind, rest) = next_word(line)?;
    let (name, rest) = next_word(rest)?;
    let (colon, rest) = next_word(rest)?;
    if kind != b"fn".as_slice() {
        return None;
    }
    if !is_function_name(name) {
        return None;
    }
    if colon != b":".as_slice() {
        return None;
    }
    Some((name, rest))
}

/// The function that a line of this number defines.
pub(crate) fn read_definition(
    alloc: Global,
    number: u64,
    line: &[u8],
) -> Result<Option<FunctionDefinition>, AllocError>
    ensures { IfOk result (λ definition. definition ≡ definition_of number (words_of line.now)) }
{
    let Some((name, text)) = read_head(line) else {
        return Ok(None);
    };
    let Some(code) = read_code(alloc, text)? else {
        return Ok(None);
    };
    let name = Bytes::from_slice(alloc, name)?;
    Ok(Some(FunctionDefinition { name, number, code }))
}
