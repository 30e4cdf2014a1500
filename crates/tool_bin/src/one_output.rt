//! Cards with one output: what they read, and the outcome with what they make.

ghost use Rattle.std.specs.Prelude.{◌≡◌, IfOk};
ghost use Rattle.std.specs.Option.{option_copied};
ghost use Rattle.tool_bin.specs.OneOutput.{source_of, plain_source_of, output_outcome};

use object_name::{Bytes, Many};
use std::alloc::{AllocError, Global};
use thunk_codec::{Job, Outcome, only_input};

/// The one input of a job with one output.
pub(crate) fn source_of(job: &Job) -> Option<&[u8]>
    ensures { option_copied result ≡ source_of job.now }
{
    if job.outputs.len() != 1 {
        return None;
    }
    only_input(job.inputs.as_slice(), b"in")
}

/// The same where there are no arguments.
pub(crate) fn plain_source_of(job: &Job) -> Option<&[u8]>
    ensures { option_copied result ≡ plain_source_of job.now }
{
    if job.args.len() != 0 {
        return None;
    }
    source_of(job)
}

/// The outcome with the output that was made, or with a status where none was.
pub(crate) fn output_outcome(
    alloc: Global,
    status: u8,
    output: Option<Bytes>,
) -> Result<Outcome, AllocError>
    ensures { IfOk result (λ outcome. outcome ≡ output_outcome status output) }
{
    let Some(output) = output else {
        return Ok(Outcome::Failed(status));
    };
    let mut outputs = Many::new(alloc);
    outputs.push(output)?;
    Ok(Outcome::Done(outputs))
}
