//! The card `fib`.

ghost use Rattle.std.specs.Prelude.{◌≡◌, ◌≤◌, IfOk, OnOk, bytes_eq};
ghost use Rattle.std.specs.List.{AllByRecursion};
ghost use Rattle.std.specs.Cmp.Lexicographic.{pointwise};
ghost use Rattle.object_name.specs.declared.kind.Kind.TheVariants as kinds;
ghost use Rattle.thunk_codec.specs.Thunk.{IsThunk};
ghost use Rattle.tool_text.specs.Fib.{GivesThunksFrom2, add_name, asked_of, contents_of, fib_outcome, fib_outputs, index_of, thunks_of, value_name};

use crate::fib_thunks::{Asked, thunk_texts};
use crate::numbers::number_line;
use crate::status::BAD_FORM;
use object_name::{Bytes, Kind, Many, Name, name_of, read_number};
use std::alloc::{AllocError, Global};
use thunk_codec::{Job, Outcome, Path, only_input};

/// The greatest index of a Fibonacci number that is below 2^64.
const GREATEST: u64 = 93;

/// Whether these are the outputs.
fn are_outputs(outputs: &[Path]) -> bool
    ensures { result ≡ pointwise bytes_eq outputs.now fib_outputs }
{
    match outputs {
        [out, left, right] => {
            out.text() == b"out".as_slice()
                && left.text() == b"left".as_slice()
                && right.text() == b"right".as_slice()
        }
        _ => false,
    }
}

/// The index that some arguments say.
fn index_of(args: &[Bytes]) -> Option<u64>
    ensures { result ≡ index_of args.now }
{
    let [arg] = args else {
        return None;
    };
    let number = read_number(arg.as_slice())?;
    if number > GREATEST {
        return None;
    }
    Some(number)
}

/// The name of a value.
fn value_name(bytes: &[u8]) -> Option<Name>
    ensures { result ≡ value_name bytes.now }
{
    let Ok(name) = name_of(bytes) else {
        return None;
    };
    match name.kind() {
        Kind::Value => Some(name),
        Kind::Thunk => None,
    }
}

/// The name of the one input.
fn add_name(inputs: &[(Path, Bytes)]) -> Option<Name>
    ensures { result ≡ add_name inputs.now }
{
    value_name(only_input(inputs, b"add")?)
}

/// What a job asks for.
fn asked_of(job: &Job) -> Option<Asked>
    ensures { result ≡ asked_of job.now }
{
    if !are_outputs(job.outputs.as_slice()) {
        return None;
    }
    let number = index_of(job.args.as_slice())?;
    let function = value_name(job.function.as_slice())?;
    let add = add_name(job.inputs.as_slice())?;
    Some(Asked {
        number,
        function,
        add,
    })
}

/// The outputs of what is asked for.
fn contents_of(alloc: Global, asked: &Asked) -> Result<Many<Bytes>, AllocError>
    ensures contents { IfOk result (λ contents. contents ≡ contents_of asked.now) }
    ensures rules { OnOk result (2 ≤ asked.now.number → asked.now.function.kind ≡ kinds.Value → asked.now.add.kind ≡ kinds.Value → AllByRecursion IsThunk (thunks_of asked.now)) }
{
    if asked.number > 1 {
        return thunk_texts(alloc, asked);
    }
    let mut contents = Many::new(alloc);
    contents.push(number_line(alloc, asked.number)?)?;
    contents.push(Bytes::new(alloc))?;
    contents.push(Bytes::new(alloc))?;
    Ok(contents)
}

/// The outcome of a job of the card `fib`.
pub fn fib(alloc: Global, job: &Job) -> Result<Outcome, AllocError>
    ensures exact { IfOk result (λ outcome. outcome ≡ fib_outcome job.now) }
    ensures thunks { IfOk result (GivesThunksFrom2 job.now) }
{
    match asked_of(job) {
        Some(asked) => Ok(Outcome::Done(contents_of(alloc, &asked)?)),
        None => Ok(Outcome::Failed(BAD_FORM)),
    }
}
