//! Reading objects from their texts.

ghost use Rattle.std.specs.Prelude.{◌≡◌, Some, None, IfOk, MatchOption};
ghost use Rattle.object_name.specs.Number.{number_of};
ghost use Rattle.text_lines.specs.Blanks.{words_of};
ghost use Rattle.text_lines.specs.Lines.{lines_of};
ghost use Rattle.tool_bin.specs.ObjectBuilder.{empty_builder, object_in};
ghost use Rattle.tool_bin.specs.Instruction.{instruction_of};
ghost use Rattle.tool_bin.specs.Object.{object_head, names_of};
ghost use Rattle.tool_bin.specs.ObjectReading.{with_numbered, with_read_code, with_three, three_of, with_words, with_read_lines, object_of, symbol_names};

use crate::instruction::read_instruction;
use crate::object::{OBJECT_HEAD, Object, Symbol, write_object};
use crate::object_builder::ObjectBuilder;
use crate::object_rules::is_well_formed;
use object_name::{Bytes, Many, read_number};
use std::alloc::{AllocError, Global};
use text_lines::{next_line, next_word};

/// With the debug line that says a number.
fn with_numbered(
    alloc: Global,
    name: &[u8],
    number: Option<u64>,
    builder: ObjectBuilder,
) -> Result<ObjectBuilder, AllocError>
    ensures { IfOk result (λ made. made ≡ with_numbered name.now number builder) }
{
    let Some(number) = number else {
        return Ok(builder);
    };
    let name = Bytes::from_slice(alloc, name)?;
    builder.with_debug(name, number)
}

/// With what a line of three words says.
fn with_three(
    alloc: Global,
    kind: &[u8],
    name: &[u8],
    number: &[u8],
    builder: ObjectBuilder,
) -> Result<ObjectBuilder, AllocError>
    ensures { IfOk result (λ made. made ≡ with_three kind.now name.now number.now builder) }
{
    if kind == b"sym".as_slice() {
        return builder.with_label(alloc, name);
    }
    if kind == b"dbg".as_slice() {
        return with_numbered(alloc, name, read_number(number), builder);
    }
    Ok(builder)
}

/// With the instruction of a line.
fn with_read_code(
    alloc: Global,
    line: &[u8],
    builder: ObjectBuilder,
) -> Result<ObjectBuilder, AllocError>
    ensures { IfOk result (λ made. made ≡ with_read_code (instruction_of (words_of line.now)) builder) }
{
    let Some(instruction) = read_instruction(alloc, line)? else {
        return Ok(builder);
    };
    builder.with_instruction(instruction)
}

/// The three words of a line that has three.
fn three_words(line: &[u8]) -> Option<(&[u8], &[u8], &[u8])>
    ensures { MatchOption result (three_of (words_of line.now) ≡ None)
        (λ words. three_of (words_of line.now) ≡ Some (words.0.now, words.1.now, words.2.now)) }
{
    let (kind, rest) = next_word(line)?;
    let (name, rest) = next_word(rest)?;
    let (number, rest) = next_word(rest)?;
    if next_word(rest).is_some() {
        return None;
    }
    Some((kind, name, number))
}

/// With what a line says.
fn with_read_line(
    alloc: Global,
    line: &[u8],
    builder: ObjectBuilder,
) -> Result<ObjectBuilder, AllocError>
    ensures { IfOk result (λ made. made ≡ with_words (words_of line.now) builder) }
{
    match three_words(line) {
        Some((kind, name, number)) => with_three(alloc, kind, name, number, builder),
        None => with_read_code(alloc, line, builder),
    }
}

/// With what the lines of a text say.
fn with_read_lines(alloc: Global, text: &[u8]) -> Result<ObjectBuilder, AllocError>
    ensures { IfOk result (λ made. made ≡ with_read_lines (lines_of text.now) empty_builder) }
{
    let mut builder = ObjectBuilder::new(alloc);
    let mut rest = text;
    'lines: while let Some((line, after)) = next_line(rest) {
        builder = with_read_line(alloc, line, builder)?;
        rest = after;
    }
    Ok(builder)
}

/// The object of a text with this first line, where the bytes are the text of one.
#[tactic(auto, unfolding(crate::specs::ObjectReading::object_of))]
pub(crate) fn read_with(
    alloc: Global,
    head: &[u8],
    bytes: &[u8],
) -> Result<Option<Object>, AllocError>
    ensures { IfOk result (λ object. object ≡ object_of head.now bytes.now) }
{
    // What begins with another line isn't gone through.
    if !bytes.starts_with(head) {
        return Ok(None);
    }
    let object = with_read_lines(alloc, bytes)?.into_object()?;
    if !is_well_formed(alloc, &object)? {
        return Ok(None);
    }
    let text = write_object(alloc, head, &object)?;
    if text.as_slice() != bytes {
        return Ok(None);
    }
    Ok(Some(object))
}

/// The object of a text, where the bytes are the text of one.
pub fn read_object(alloc: Global, bytes: &[u8]) -> Result<Option<Object>, AllocError>
    ensures { IfOk result (λ object. object ≡ object_of object_head bytes.now) }
{
    read_with(alloc, OBJECT_HEAD, bytes)
}

/// The names of some symbols.
fn names_of(alloc: Global, symbols: &[Symbol]) -> Result<Many<Bytes>, AllocError>
    ensures { IfOk result (λ names. names ≡ names_of symbols.now) }
{
    let mut names = Many::new(alloc);
    'symbols: for symbol in symbols {
        names.push(Bytes::from_slice(alloc, symbol.name.as_slice())?)?;
    }
    Ok(names)
}

/// The names that an object defines, by its text.
#[tactic(auto, unfolding(crate::specs::ObjectReading::symbol_names))]
pub fn symbol_names(alloc: Global, bytes: &[u8]) -> Result<Option<Many<Bytes>>, AllocError>
    ensures { IfOk result (λ names. names ≡ symbol_names bytes.now) }
{
    let Some(object) = read_object(alloc, bytes)? else {
        return Ok(None);
    };
    Ok(Some(names_of(alloc, object.symbols.as_slice())?))
}
