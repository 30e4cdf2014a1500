//! Replies that are changed.

ghost use Rattle.thunk_codec.specs.declared.job.Job.{Job};
ghost use Rattle.thunk_codec.specs.Outcome.{Fits};

use crate::twist_link::Twist;
use job_wire::fit_together;
use object_name::{Bytes, Many};
use thunk_codec::{Job, Outcome};

/// Gives other outputs in one of the replies, where they are as many.
#[derive(Drop)]
pub struct Lie {
    /// How many replies come before that one.
    before: u32,
    outputs: Option<Many<Bytes>>,
}

/// An outcome with these outputs in place of its own, where they are as many.
fn changed(outcome: Outcome, lie: Many<Bytes>) -> Outcome
    ensures { (job : Job) → Fits job outcome → Fits job result }
{
    match outcome {
        Outcome::Failed(status) => Outcome::Failed(status),
        Outcome::Done(outputs) => {
            if lie.len() != outputs.len() {
                return Outcome::Done(outputs);
            }
            if !fit_together(lie.as_slice()) {
                return Outcome::Done(outputs);
            }
            Outcome::Done(lie)
        }
    }
}

impl Lie {
    pub fn new(before: u32, outputs: Many<Bytes>) -> Self {
        Lie {
            before,
            outputs: Some(outputs),
        }
    }

    /// The outputs for the next reply, where it is the one to change.
    fn next(&mut self) -> Option<Many<Bytes>> {
        if self.before == 0 {
            return self.outputs.take();
        }
        self.before -= 1;
        None
    }
}

impl Twist for Lie {
    fn given(&mut self, _lease: u64, outcome: Outcome) -> Outcome {
        match self.next() {
            Some(lie) => changed(outcome, lie),
            None => outcome,
        }
    }
}
