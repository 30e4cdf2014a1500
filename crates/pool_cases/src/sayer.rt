//! A runner of which nothing is told.

ghost use Rattle.std.specs.Prelude.{◌≡◌, ◌≤◌, IsTrue, length};
ghost use Rattle.std.proofs.Common.{lit≤};
ghost use Rattle.thunk_codec.specs.declared.job.Outcome.TheVariants.{Failed};

use job_wire::fit_together;
use object_name::{Bytes, Many, Trouble, TryCopy};
use std::alloc::Global;
use thunk_codec::{Function, Job, Outcome, Runner};

/// The status of a job to which the word is no answer.
const NO_ANSWER: u8 = 1;

/// Says the same word to each job with one output.
#[derive(Drop)]
pub struct Sayer {
    pub word: Bytes,
}

impl Function for Sayer {
    ghost outcome = { λ _. Failed 1 };

    ghost tells = { λ _. ⊥ };

    ghost fits = { λ _. (lit≤ tt, lit≤ tt) };
}

impl Runner for Sayer {
    ghost faults = { λ _. 0 };

    fn run(&mut self, alloc: Global, job: &Job) -> Result<Outcome, Trouble> {
        if job.outputs.len() != 1 {
            return Ok(Outcome::Failed(NO_ANSWER));
        }
        let mut outputs = Many::new(alloc);
        outputs.push(self.word.copy(alloc)?)?;
        if !fit_together(outputs.as_slice()) {
            return Ok(Outcome::Failed(NO_ANSWER));
        }
        Ok(Outcome::Done(outputs))
    }
}
