//! The card `fail`.

ghost use Rattle.std.specs.Prelude.{◌≡◌, IfOk};
ghost use Rattle.tool_text.specs.Fail.{fail_outcome, status_in, status_of};

use crate::status::BAD_FORM;
use object_name::{Bytes, read_number};
use std::alloc::{AllocError, Global};
use thunk_codec::{Job, Outcome};

/// The greatest status that can be asked for.
const GREATEST: u64 = 200;

/// The status that a text says.
fn status_in(text: &[u8]) -> Option<u8>
    ensures { result ≡ status_in text.now }
{
    let number = read_number(text)?;
    if number < 1 {
        return None;
    }
    if number > GREATEST {
        return None;
    }
    Some(number as u8)
}

/// The status that some arguments say.
fn status_of(args: &[Bytes]) -> Option<u8>
    ensures { result ≡ status_of args.now }
{
    match args {
        [arg] => status_in(arg.as_slice()),
        _ => None,
    }
}

/// The outcome of a job of the card `fail`. No memory is taken.
pub fn fail(_alloc: Global, job: &Job) -> Result<Outcome, AllocError>
    ensures { IfOk result (λ outcome. outcome ≡ fail_outcome job.now) }
{
    if job.outputs.len() != 1 {
        return Ok(Outcome::Failed(BAD_FORM));
    }
    match status_of(job.args.as_slice()) {
        Some(status) => Ok(Outcome::Failed(status)),
        None => Ok(Outcome::Failed(BAD_FORM)),
    }
}
