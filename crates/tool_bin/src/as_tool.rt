//! The card `as`.

ghost use Rattle.std.specs.Prelude.{◌≡◌, IfOk};
ghost use Rattle.text_lines.specs.Blanks.{words_of};
ghost use Rattle.text_lines.specs.Lines.{lines_of};
ghost use Rattle.tool_bin.specs.Assemble.{with_location, with_code, with_statement, with_line, with_lines, assembled, assembled_text, as_outcome};
ghost use Rattle.tool_bin.specs.ObjectBuilder.{empty_builder};

use crate::instruction::Instruction;
use crate::object::{OBJECT_HEAD, Object, write_object};
use crate::object_builder::ObjectBuilder;
use crate::object_rules::is_well_formed;
use crate::one_output::{output_outcome, plain_source_of};
use crate::statement::{Statement, read_statement};
use crate::status::{BAD_ASSEMBLY_LINE, BAD_FORM};
use object_name::Bytes;
use std::alloc::{AllocError, Global};
use text_lines::{next_line, next_word};
use thunk_codec::{Job, Outcome};

/// With a location, which belongs to the last label.
fn with_location(
    alloc: Global,
    number: u64,
    builder: ObjectBuilder,
) -> Result<Option<ObjectBuilder>, AllocError>
    ensures { IfOk result (λ more. more ≡ with_location number builder.last builder) }
{
    let Some(symbol) = &builder.last else {
        return Ok(None);
    };
    let name = Bytes::from_slice(alloc, symbol.name.as_slice())?;
    Ok(Some(builder.with_debug(name, number)?))
}

/// With an instruction, which belongs to the last label.
fn with_code(
    instruction: Instruction,
    builder: ObjectBuilder,
) -> Result<Option<ObjectBuilder>, AllocError>
    ensures { IfOk result (λ more. more ≡ with_code instruction builder.last builder) }
{
    if builder.last.is_none() {
        return Ok(None);
    }
    Ok(Some(builder.with_instruction(instruction)?))
}

/// With one more statement.
fn with_statement(
    alloc: Global,
    statement: Statement,
    builder: ObjectBuilder,
) -> Result<Option<ObjectBuilder>, AllocError>
    ensures { IfOk result (λ more. more ≡ with_statement statement builder) }
{
    match statement {
        Statement::Label(name) => Ok(Some(builder.with_label(alloc, name.as_slice())?)),
        Statement::Location(number) => with_location(alloc, number, builder),
        Statement::Code(instruction) => with_code(instruction, builder),
    }
}

/// With one more line; a line of blanks says nothing.
fn with_line(
    alloc: Global,
    line: &[u8],
    builder: ObjectBuilder,
) -> Result<Option<ObjectBuilder>, AllocError>
    ensures { IfOk result (λ more. more ≡ with_line (words_of line.now) builder) }
{
    if next_word(line).is_none() {
        return Ok(Some(builder));
    }
    let Some(statement) = read_statement(alloc, line)? else {
        return Ok(None);
    };
    with_statement(alloc, statement, builder)
}

/// With the lines of a text.
fn with_lines(alloc: Global, text: &[u8]) -> Result<Option<ObjectBuilder>, AllocError>
    ensures { IfOk result (λ builder. builder ≡ with_lines (lines_of text.now) empty_builder) }
{
    let mut builder = ObjectBuilder::new(alloc);
    let mut rest = text;
    'lines: while let Some((line, after)) = next_line(rest) {
        let Some(more) = with_line(alloc, line, builder)? else {
            return Ok(None);
        };
        builder = more;
        rest = after;
    }
    Ok(Some(builder))
}

/// The object that a text is assembled into.
#[tactic(auto, unfolding(crate::specs::Assemble::assembled))]
fn assemble(alloc: Global, source: &[u8]) -> Result<Option<Object>, AllocError>
    ensures { IfOk result (λ object. object ≡ assembled source.now) }
{
    let Some(builder) = with_lines(alloc, source)? else {
        return Ok(None);
    };
    let object = builder.into_object()?;
    if !is_well_formed(alloc, &object)? {
        return Ok(None);
    }
    Ok(Some(object))
}

/// The text of that object.
fn assembled_text(alloc: Global, source: &[u8]) -> Result<Option<Bytes>, AllocError>
    ensures { IfOk result (λ text. text ≡ assembled_text source.now) }
{
    let Some(object) = assemble(alloc, source)? else {
        return Ok(None);
    };
    Ok(Some(write_object(alloc, OBJECT_HEAD, &object)?))
}

/// The outcome of a job of the card `as`.
pub fn as_(alloc: Global, job: &Job) -> Result<Outcome, AllocError>
    ensures { IfOk result (λ outcome. outcome ≡ as_outcome job.now) }
{
    let Some(source) = plain_source_of(job) else {
        return Ok(Outcome::Failed(BAD_FORM));
    };
    let text = assembled_text(alloc, source)?;
    output_outcome(alloc, BAD_ASSEMBLY_LINE, text)
}
