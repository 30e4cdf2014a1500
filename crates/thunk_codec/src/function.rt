//! What runs jobs, and what it computes.

ghost use Rattle.std.specs.Prelude.{◌≡◌, IfOk, ℕ};
ghost use Rattle.object_name.specs.Causes.{HasCause};
ghost use Rattle.thunk_codec.specs.declared.job.Job.{Job};
ghost use Rattle.thunk_codec.specs.declared.job.Outcome.{Outcome};
ghost use Rattle.thunk_codec.specs.Outcome.{Fits};

use crate::job::{Job, Outcome};
use object_name::Trouble;
use std::alloc::Global;

/// A function of jobs, for contracts alone: no code runs it.
pub trait Function {
    /// The outcome of each job.
    ghost outcome: { Job → Outcome };

    /// The jobs whose outcome is told: whoever runs them gives this one.
    ghost tells: { Job → Type 0 };

    /// Each outcome fits its job.
    ghost fits: { (job : Job) → Fits job (outcome job) };
}

/// What runs jobs here.
pub trait Runner: Function {
    /// How often a run has failed.
    ghost faults: { Self → ℕ };

    fn run(&mut self, alloc: Global, job: &Job) -> Result<Outcome, Trouble>
        ensures fits { IfOk result (λ o. Fits job.now o) }
        ensures told { Self.tells job.now → IfOk result (λ o. o ≡ Self.outcome job.now) }
        ensures cause { HasCause (faults self.old) (faults self.new) result };
}
