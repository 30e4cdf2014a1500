//! Instructions of the stack machine.

ghost use Rattle.std.specs.Prelude.{◌≡◌, ◌++◌, IfOk, OnOk};
ghost use Rattle.text_lines.specs.Blanks.{words_of};
ghost use Rattle.tool_bin.specs.Instruction.{instruction_of, instruction_text, plain_of, operated_of, push_of, call_of};

use object_name::{Bytes, TryCopy, read_number, write_number};
use std::alloc::{AllocError, Global};
use text_lines::next_word;
use thunk_codec::is_identifier;

/// An instruction.
#[derive(Debug, Drop)]
pub enum Instruction {
    Push(u64),
    Add,
    Subtract,
    Multiply,
    Print,
    Call(Bytes),
    Return,
}

impl TryCopy for Instruction {
    fn copy(&self, alloc: Global) -> Result<Self, AllocError> {
        match self {
            Instruction::Push(number) => Ok(Instruction::Push(*number)),
            Instruction::Add => Ok(Instruction::Add),
            Instruction::Subtract => Ok(Instruction::Subtract),
            Instruction::Multiply => Ok(Instruction::Multiply),
            Instruction::Print => Ok(Instruction::Print),
            Instruction::Call(name) => Ok(Instruction::Call(name.copy(alloc)?)),
            Instruction::Return => Ok(Instruction::Return),
        }
    }
}

/// Appends what the line of an instruction says.
pub(crate) fn write_instruction(
    instruction: &Instruction,
    out: &mut Bytes,
) -> Result<(), AllocError>
    ensures { OnOk result (out.new ≡ out.old ++ instruction_text instruction.now) }
{
    match instruction {
        Instruction::Push(number) => {
            out.append(b"push ")?;
            write_number(*number, out)
        }
        Instruction::Add => out.append(b"add"),
        Instruction::Subtract => out.append(b"sub"),
        Instruction::Multiply => out.append(b"mul"),
        Instruction::Print => out.append(b"print"),
        Instruction::Call(name) => {
            out.append(b"call ")?;
            out.append(name.as_slice())
        }
        Instruction::Return => out.append(b"ret"),
    }
}

/// The instruction of one word.
#[tactic(auto, unfolding(crate::specs::Instruction::plain_of))]
fn plain(word: &[u8]) -> Option<Instruction>
    ensures { result ≡ plain_of word.now }
{
    if word == b"add".as_slice() {
        return Some(Instruction::Add);
    }
    if word == b"sub".as_slice() {
        return Some(Instruction::Subtract);
    }
    if word == b"mul".as_slice() {
        return Some(Instruction::Multiply);
    }
    if word == b"print".as_slice() {
        return Some(Instruction::Print);
    }
    if word == b"ret".as_slice() {
        return Some(Instruction::Return);
    }
    None
}

/// Pushing the number that a text spells.
fn push(operand: &[u8]) -> Option<Instruction>
    ensures { result ≡ push_of operand.now }
{
    let number = read_number(operand)?;
    Some(Instruction::Push(number))
}

/// Calling the identifier that a text is.
fn call(alloc: Global, operand: &[u8]) -> Result<Option<Instruction>, AllocError>
    ensures { IfOk result (λ instruction. instruction ≡ call_of operand.now) }
{
    if !is_identifier(operand) {
        return Ok(None);
    }
    Ok(Some(Instruction::Call(Bytes::from_slice(alloc, operand)?)))
}

/// The instruction of two words.
#[tactic(auto, unfolding(crate::specs::Instruction::operated_of))]
fn operated(alloc: Global, word: &[u8], operand: &[u8]) -> Result<Option<Instruction>, AllocError>
    ensures { IfOk result (λ instruction. instruction ≡ operated_of word.now operand.now) }
{
    if word == b"push".as_slice() {
        return Ok(push(operand));
    }
    if word == b"call".as_slice() {
        return call(alloc, operand);
    }
    Ok(None)
}

/// The instruction whose words a line has.
pub(crate) fn read_instruction(
    alloc: Global,
    line: &[u8],
) -> Result<Option<Instruction>, AllocError>
    ensures { IfOk result (λ instruction. instruction ≡ instruction_of (words_of line.now)) }
{
    let Some((word, rest)) = next_word(line) else {
        return Ok(None);
    };
    let Some((operand, rest)) = next_word(rest) else {
        return Ok(plain(word));
    };
    if next_word(rest).is_some() {
        return Ok(None);
    }
    operated(alloc, word, operand)
}
