//! The card `add`.

ghost use Rattle.std.specs.Prelude.{◌≡◌, IfOk};
ghost use Rattle.tool_text.specs.Add.{add_outcome, inputs_outcome, sum_outcome};
ghost use Rattle.tool_text.specs.Numbers.{number_in};

use crate::numbers::{number_in, number_line};
use crate::status::{BAD_FORM, NOT_A_NUMBER, SUM_TOO_GREAT};
use object_name::{Bytes, Many};
use std::alloc::{AllocError, Global};
use thunk_codec::{Job, Outcome, Path};

/// The outcome of adding the numbers that two files hold.
fn add_files(alloc: Global, first: &[u8], second: &[u8]) -> Result<Outcome, AllocError>
    ensures { IfOk result (λ outcome. outcome ≡ sum_outcome (number_in first.now) (number_in second.now)) }
{
    let Some(first) = number_in(first) else {
        return Ok(Outcome::Failed(NOT_A_NUMBER));
    };
    let Some(second) = number_in(second) else {
        return Ok(Outcome::Failed(NOT_A_NUMBER));
    };
    let Some(sum) = first.checked_add(second) else {
        return Ok(Outcome::Failed(SUM_TOO_GREAT));
    };
    let mut outputs = Many::new(alloc);
    outputs.push(number_line(alloc, sum)?)?;
    Ok(Outcome::Done(outputs))
}

/// The outcome of adding what some inputs hold.
fn add_inputs(alloc: Global, inputs: &[(Path, Bytes)]) -> Result<Outcome, AllocError>
    ensures { IfOk result (λ outcome. outcome ≡ inputs_outcome inputs.now) }
{
    let [first, second] = inputs else {
        return Ok(Outcome::Failed(BAD_FORM));
    };
    if first.0.text() != b"a".as_slice() {
        return Ok(Outcome::Failed(BAD_FORM));
    }
    if second.0.text() != b"b".as_slice() {
        return Ok(Outcome::Failed(BAD_FORM));
    }
    add_files(alloc, first.1.as_slice(), second.1.as_slice())
}

/// The outcome of a job of the card `add`.
pub fn add(alloc: Global, job: &Job) -> Result<Outcome, AllocError>
    ensures { IfOk result (λ outcome. outcome ≡ add_outcome job.now) }
{
    if !job.args.is_empty() {
        return Ok(Outcome::Failed(BAD_FORM));
    }
    if job.outputs.len() != 1 {
        return Ok(Outcome::Failed(BAD_FORM));
    }
    add_inputs(alloc, job.inputs.as_slice())
}
