//! The card `cat`.

ghost use Rattle.std.specs.Prelude.{◌≡◌, IfOk};
ghost use Rattle.std.specs.List.{flat_map};
ghost use Rattle.tool_text.specs.Cat.{cat_outcome};

use crate::status::BAD_FORM;
use object_name::{Bytes, Many};
use std::alloc::{AllocError, Global};
use thunk_codec::{Job, Outcome, Path};

/// The bytes of some inputs, in their order.
fn join(alloc: Global, inputs: &[(Path, Bytes)]) -> Result<Bytes, AllocError>
    ensures { IfOk result (λ all. all ≡ flat_map (λ input. input.1) inputs.now) }
{
    let mut all = Bytes::new(alloc);
    'inputs: for (_, bytes) in inputs {
        all.append(bytes.as_slice())?;
    }
    Ok(all)
}

/// The outcome of a job of the card `cat`, however long its output is.
pub fn cat(alloc: Global, job: &Job) -> Result<Outcome, AllocError>
    ensures { IfOk result (λ outcome. outcome ≡ cat_outcome job.now) }
{
    if !job.args.is_empty() {
        return Ok(Outcome::Failed(BAD_FORM));
    }
    if job.outputs.len() != 1 {
        return Ok(Outcome::Failed(BAD_FORM));
    }
    let mut outputs = Many::new(alloc);
    outputs.push(join(alloc, job.inputs.as_slice())?)?;
    Ok(Outcome::Done(outputs))
}
