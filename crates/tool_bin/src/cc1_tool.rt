//! The card `cc1`.

ghost use Rattle.std.specs.Prelude.{◌≡◌, ◌++◌, [], map, IfOk, OnOk};
ghost use Rattle.std.specs.List.{flat_map};
ghost use Rattle.text_lines.specs.Blanks.{words_of};
ghost use Rattle.text_lines.specs.Lines.{lines_of};
ghost use Rattle.tool_bin.specs.Compile.{with_definition, definitions_with, location_text, definition_text, compiled, debugging_with, is_debugging, cc1_outcome};
ghost use Rattle.tool_bin.specs.Object.{are_new};

use crate::function_definition::{FunctionDefinition, read_definition};
use crate::names::Names;
use crate::object::write_code;
use crate::one_output::{output_outcome, source_of};
use crate::status::{BAD_FORM, BAD_SOURCE_LINE};
use object_name::{Bytes, Many, write_number};
use std::alloc::{AllocError, Global};
use text_lines::{next_line, next_word};
use thunk_codec::{Job, Outcome};

/// The definitions with what one more line defines.
fn with_definition(
    alloc: Global,
    number: u64,
    made: Many<FunctionDefinition>,
    line: &[u8],
) -> Result<Option<Many<FunctionDefinition>>, AllocError>
    ensures { IfOk result (λ more. more ≡ with_definition number made (words_of line.now)) }
{
    if next_word(line).is_none() {
        return Ok(Some(made));
    }
    let Some(definition) = read_definition(alloc, number, line)? else {
        return Ok(None);
    };
    let mut more = made;
    more.push(definition)?;
    Ok(Some(more))
}

/// The definitions of a text.
fn read_definitions(
    alloc: Global,
    text: &[u8],
) -> Result<Option<Many<FunctionDefinition>>, AllocError>
    ensures { IfOk result (λ made. made ≡ definitions_with 1 [] (lines_of text.now)) }
{
    let mut made = Many::new(alloc);
    let mut number = 1;
    let mut rest = text;
    'lines: while let Some((line, after)) = next_line(rest) {
        let Some(more) = with_definition(alloc, number, made, line)? else {
            return Ok(None);
        };
        made = more;
        number += 1;
        rest = after;
    }
    Ok(Some(made))
}

/// Whether no two functions have one name.
fn are_new(alloc: Global, definitions: &[FunctionDefinition]) -> Result<bool, AllocError>
    ensures { IfOk result (λ new. new ≡ are_new [] (map (λ definition. definition.name) definitions.now)) }
{
    let mut seen = Names::new(alloc);
    let mut rest = definitions;
    'definitions: while let [definition, others @ ..] = rest {
        if !seen.add(alloc, &definition.name)? {
            return Ok(false);
        }
        rest = others;
    }
    Ok(true)
}

/// Appends a location, where debugging is on.
fn write_location(debugging: bool, number: u64, out: &mut Bytes) -> Result<(), AllocError>
    ensures { OnOk result (out.new ≡ out.old ++ location_text debugging number) }
{
    if !debugging {
        return Ok(());
    }
    out.append(b".loc ")?;
    write_number(number, out)?;
    out.append(b"\n")
}

/// Appends the lines of a definition.
fn write_definition(
    debugging: bool,
    definition: &FunctionDefinition,
    out: &mut Bytes,
) -> Result<(), AllocError>
    ensures { OnOk result (out.new ≡ out.old ++ definition_text debugging definition.now) }
{
    out.append(definition.name.as_slice())?;
    out.append(b":\n")?;
    write_location(debugging, definition.number, out)?;
    write_code(definition.code.as_slice(), out)?;
    out.append(b"ret\n")
}

/// The lines of some definitions.
fn write_definitions(
    alloc: Global,
    debugging: bool,
    definitions: &[FunctionDefinition],
) -> Result<Bytes, AllocError>
    ensures { IfOk result (λ text. text ≡ flat_map (definition_text debugging) definitions.now) }
{
    let mut out = Bytes::new(alloc);
    'definitions: for definition in definitions {
        write_definition(debugging, definition, &mut out)?;
    }
    Ok(out)
}

/// The lines for the assembler that a source is made into.
#[tactic(auto, unfolding(crate::specs::Compile::compiled))]
fn compile(alloc: Global, debugging: bool, source: &[u8]) -> Result<Option<Bytes>, AllocError>
    ensures { IfOk result (λ text. text ≡ compiled debugging source.now) }
{
    let Some(definitions) = read_definitions(alloc, source)? else {
        return Ok(None);
    };
    if !are_new(alloc, definitions.as_slice())? {
        return Ok(None);
    }
    Ok(Some(write_definitions(alloc, debugging, definitions.as_slice())?))
}

/// Whether debugging is on after one more argument.
fn debugging_with(debugging: bool, arg: &[u8]) -> bool
    ensures { result ≡ debugging_with debugging arg.now }
{
    if !arg.starts_with(b"-g") {
        return debugging;
    }
    arg != b"-g0".as_slice()
}

/// Whether debugging is on.
fn is_debugging(args: &[Bytes]) -> bool
    ensures { result ≡ is_debugging args.now }
{
    args.iter().fold(false, |debugging, arg| {
        debugging_with(debugging, arg.as_slice())
    })
}

/// The outcome of a job of the card `cc1`.
pub fn cc1(alloc: Global, job: &Job) -> Result<Outcome, AllocError>
    ensures { IfOk result (λ outcome. outcome ≡ cc1_outcome job.now) }
{
    let Some(source) = source_of(job) else {
        return Ok(Outcome::Failed(BAD_FORM));
    };
    let debugging = is_debugging(job.args.as_slice());
    let text = compile(alloc, debugging, source)?;
    output_outcome(alloc, BAD_SOURCE_LINE, text)
}
