//! The card `ld`.

ghost use Rattle.std.specs.Prelude.{◌≡◌, is_some, IfOk};
ghost use Rattle.std.specs.List.{list_all};
ghost use Rattle.tool_bin.specs.ArchiveReading.{archive_of};
ghost use Rattle.tool_bin.specs.Link.{objects_in, pass, searched, with_archive, with_file, with_input, with_named, with_inputs, is_link_job, linked, executable_text, executable_outcome, ld_outcome};
ghost use Rattle.tool_bin.specs.Program.{empty_program};
ghost use Rattle.text_lines.specs.Among.{is_among};
ghost use Rattle.thunk_codec.specs.Job.{input_at};
ghost use Rattle.tool_bin.specs.Object.{object_head};
ghost use Rattle.tool_bin.specs.ObjectReading.{object_of};

use crate::archive::{ARCHIVE_MARK, Member, read_archive};
use crate::link_fault::{LinkFault, fault_status};
use crate::names::Names;
use crate::object::{EXECUTABLE_HEAD, Object, write_object};
use crate::object_reading::read_object;
use crate::program::{Linked, Program};
use object_name::{Bytes, Many};
use std::alloc::{AllocError, Global};
use thunk_codec::{InputsByPath, Job, Outcome, Path};

/// The members that are objects.
fn objects_in(alloc: Global, members: &[Member<'_>]) -> Result<Many<Object>, AllocError>
    ensures { IfOk result (λ objects. objects ≡ objects_in members.now) }
{
    let mut objects = Many::new(alloc);
    'members: for member in members {
        if let Some(object) = read_object(alloc, member.contents())? {
            objects.push(object)?;
        }
    }
    Ok(objects)
}

/// Looks at objects in order, and adds those that are asked for.
fn pass(alloc: Global, before: Program, objects: &[Object]) -> Result<Linked, AllocError>
    ensures { IfOk result (λ linked. linked ≡ pass before objects.now) }
{
    let mut program = before;
    let mut rest = objects;
    'objects: while let [object, others @ ..] = rest {
        program = match program.with_asked(alloc, object)? {
            Ok(more) => more,
            Err(fault) => return Ok(Err(fault)),
        };
        rest = others;
    }
    Ok(Ok(program))
}

/// Makes passes over objects until one adds none, and no more than so many.
fn search(
    alloc: Global,
    most: usize,
    before: Program,
    objects: &[Object],
) -> Result<Linked, AllocError>
    ensures { IfOk result (λ linked. linked ≡ searched most before objects.now) }
{
    let mut program = before;
    let mut passes = most;
    'passes: while passes > 0 {
        let count = program.symbols.len();
        program = match pass(alloc, program, objects)? {
            Ok(more) => more,
            Err(fault) => return Ok(Err(fault)),
        };
        if program.symbols.len() == count {
            return Ok(Ok(program));
        }
        passes -= 1;
    }
    Ok(Ok(program))
}

/// Searches an archive.
fn with_archive(alloc: Global, program: Program, bytes: &[u8]) -> Result<Linked, AllocError>
    ensures { IfOk result (λ linked. linked ≡ with_archive program (archive_of bytes.now)) }
{
    let Some(archive) = read_archive(alloc, bytes)? else {
        return Ok(Err(LinkFault::BadArchive));
    };
    let objects = objects_in(alloc, archive.members())?;
    search(alloc, objects.len() + 1, program, objects.as_slice())
}

/// Adds an object.
fn with_file(alloc: Global, program: Program, bytes: &[u8]) -> Result<Linked, AllocError>
    ensures { IfOk result (λ linked. linked ≡ with_file program (object_of object_head bytes.now)) }
{
    let Some(object) = read_object(alloc, bytes)? else {
        return Ok(Err(LinkFault::NotAnObject));
    };
    program.with_object(alloc, &object)
}

/// Takes an input: an archive, or else an object.
fn with_input(alloc: Global, program: Program, bytes: &[u8]) -> Result<Linked, AllocError>
    ensures { IfOk result (λ linked. linked ≡ with_input program bytes.now) }
{
    if bytes.starts_with(ARCHIVE_MARK) {
        return with_archive(alloc, program, bytes);
    }
    with_file(alloc, program, bytes)
}

/// Takes the input that an argument names.
fn with_named(
    alloc: Global,
    program: Program,
    inputs: &InputsByPath<'_>,
    arg: &Bytes,
) -> Result<Linked, AllocError>
    ensures { IfOk result (λ linked. linked ≡ with_named program (input_at arg.now inputs.now)) }
{
    let Some((_, bytes)) = inputs.find(arg.as_slice()) else {
        return Ok(Err(LinkFault::BadForm));
    };
    with_input(alloc, program, bytes.as_slice())
}

/// Takes the inputs that some arguments name.
fn with_inputs(
    alloc: Global,
    before: Program,
    inputs: &InputsByPath<'_>,
    args: &[Bytes],
) -> Result<Linked, AllocError>
    ensures { IfOk result (λ linked. linked ≡ with_inputs inputs.now before args.now) }
{
    let mut program = before;
    let mut rest = args;
    'inputs: while let [arg, others @ ..] = rest {
        program = match with_named(alloc, program, inputs, arg)? {
            Ok(more) => more,
            Err(fault) => return Ok(Err(fault)),
        };
        rest = others;
    }
    Ok(Ok(program))
}

/// Whether each argument is the path of an input.
fn are_inputs(inputs: &InputsByPath<'_>, args: &[Bytes]) -> bool
    ensures { result ≡ list_all (λ arg. is_some (input_at arg inputs.now)) args.now }
{
    args.iter().all(|arg| inputs.find(arg.as_slice()).is_some())
}

/// Whether the path of each input is one of some names.
fn are_named_by(alloc: Global, inputs: &[(Path, Bytes)], names: &Names) -> Result<bool, AllocError>
    ensures { IfOk result (λ named. named ≡ list_all (λ input. is_among names.now input.0) inputs.now) }
{
    let mut rest = inputs;
    'inputs: while let [input, others @ ..] = rest {
        let path = Bytes::from_slice(alloc, input.0.text())?;
        if !names.contains(&path) {
            return Ok(false);
        }
        rest = others;
    }
    Ok(true)
}

/// Whether the path of each input is an argument.
fn are_named(alloc: Global, job: &Job) -> Result<bool, AllocError>
    ensures { IfOk result (λ named. named ≡ list_all (λ input. is_among job.now.args input.0) job.now.inputs) }
{
    let names = Names::of(alloc, job.args.as_slice())?;
    are_named_by(alloc, job.inputs.as_slice(), &names)
}

/// Whether a job is one of this card: it has one output and arguments, and arguments and inputs name each other.
fn is_link_job(alloc: Global, job: &Job) -> Result<bool, AllocError>
    ensures { IfOk result (λ is. is ≡ is_link_job job.now) }
{
    if job.outputs.len() != 1 {
        return Ok(false);
    }
    if job.args.len() == 0 {
        return Ok(false);
    }
    if !are_inputs(&job.inputs_by_path(), job.args.as_slice()) {
        return Ok(false);
    }
    are_named(alloc, job)
}

/// The program that a job asks for.
#[tactic(auto, unfolding(crate::specs::Link::linked))]
fn link(alloc: Global, job: &Job) -> Result<Linked, AllocError>
    ensures { IfOk result (λ program. program ≡ linked job.now) }
{
    if !is_link_job(alloc, job)? {
        return Ok(Err(LinkFault::BadForm));
    }
    let inputs = job.inputs_by_path();
    match with_inputs(alloc, Program::new(alloc)?, &inputs, job.args.as_slice())? {
        Ok(program) => Ok(program.all_defined()),
        Err(fault) => Ok(Err(fault)),
    }
}

/// The executable of a program.
fn executable(alloc: Global, program: Program) -> Result<Bytes, AllocError>
    ensures { IfOk result (λ text. text ≡ executable_text program) }
{
    let Program {
        symbols,
        debug,
        defined: _,
        wanted: _,
    } = program;
    write_object(alloc, EXECUTABLE_HEAD, &Object { symbols, debug })
}

/// The outcome of a job of the card `ld`.
pub fn ld(alloc: Global, job: &Job) -> Result<Outcome, AllocError>
    ensures { IfOk result (λ outcome. outcome ≡ ld_outcome job.now) }
{
    let program = match link(alloc, job)? {
        Ok(program) => program,
        Err(fault) => return Ok(Outcome::Failed(fault_status(fault))),
    };
    let mut outputs = Many::new(alloc);
    outputs.push(executable(alloc, program)?)?;
    Ok(Outcome::Done(outputs))
}
