//! A function of jobs of which nothing is told.

ghost use Rattle.std.specs.Prelude.{◌≡◌, ◌≤◌, IsTrue, IfOk, length, sum_by};
ghost use Rattle.std.proofs.Common.{lit≤};
ghost use Rattle.object_name.specs.Name.{max_size};
ghost use Rattle.thunk_codec.specs.declared.job.Outcome.TheVariants.{Failed};

use object_name::{Bytes, MAX_SIZE, Many, Trouble};
use std::alloc::{AllocError, Global};
use thunk_codec::{Function, Job, Outcome, Path, Runner};

/// The status of a job with an argument.
pub const WITH_ARGUMENT: u8 = 9;

/// The status of a job whose outputs together would be too long.
const TOO_LONG: u8 = 201;

/// Joins the function's bytes and the inputs': that is the first output. Each later one has a `+` more.
/// A job with an argument fails.
#[derive(Drop)]
pub struct Joins;

impl Function for Joins {
    ghost outcome = { λ _. Failed 3 };

    ghost tells = { λ _. ⊥ };

    ghost fits = { λ _. (lit≤ tt, lit≤ tt) };
}

impl Runner for Joins {
    ghost faults = { λ _. 0 };

    fn run(&mut self, alloc: Global, job: &Job) -> Result<Outcome, Trouble> {
        if !job.args.is_empty() {
            return Ok(Outcome::Failed(WITH_ARGUMENT));
        }
        let joined = join(alloc, job)?;
        let outputs = lengthened(alloc, joined, job.outputs.as_slice())?;
        if !fit_together(outputs.as_slice()) {
            return Ok(Outcome::Failed(TOO_LONG));
        }
        Ok(Outcome::Done(outputs))
    }
}

/// The function's bytes and those of the inputs, in their order.
fn join(alloc: Global, job: &Job) -> Result<Bytes, AllocError> {
    let mut joined = Bytes::from_slice(alloc, job.function.as_slice())?;
    for (_, bytes) in job.inputs.as_slice() {
        joined.append(bytes.as_slice())?;
    }
    Ok(joined)
}

/// As many texts as there are outputs, the first this one and each later one longer by a `+`.
fn lengthened(alloc: Global, first: Bytes, outputs: &[Path]) -> Result<Many<Bytes>, AllocError>
    ensures { IfOk result (λ texts. length texts ≡ length outputs.now) }
{
    let mut text = first;
    let mut texts = Many::new(alloc);
    'outputs: for _ in outputs {
        texts.push(Bytes::from_slice(alloc, text.as_slice())?)?;
        text.append(b"+")?;
    }
    Ok(texts)
}

/// Whether some bytes together are within the size of an object.
fn fit_together(texts: &[Bytes]) -> bool
    ensures { IsTrue result → sum_by length texts.now ≤ max_size }
{
    let mut room = MAX_SIZE as usize;
    'texts: for text in texts {
        if text.len() > room {
            return false;
        }
        room -= text.len();
    }
    true
}
