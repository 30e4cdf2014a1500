//! How far a walker is: what it does next, and where its turns end.

ghost use Rattle.std.specs.Prelude.{◌≡◌, Some, IsSome};

use crate::evaluating::Values;
use crate::waiting::Waiting;

/// What a walker does next.
#[derive(Debug, Drop)]
pub enum Stage {
    /// It goes on.
    Walking,
    /// It is inside a turn.
    Turning,
    /// It waits for the outcome of a job.
    Blocked(Waiting),
    /// It is over.
    Ended,
}

/// Where the turns of a walker end.
#[derive(Drop)]
pub enum Halt {
    /// The values are there.
    AtEnd(Values),
    /// The outcome of a job is wanted.
    AtJob(Waiting),
}

impl Stage {
    ghost use Rattle.need_eval.specs.WalkerInvariant.{waiting_in};

    /// The job that is waited for.
    pub fn into_waiting(self) -> Waiting
        requires { IsSome (waiting_in self) }
        ensures { waiting_in self ≡ Some result }
    {
        match self {
            Stage::Blocked(waiting) => waiting,
            Stage::Walking => unreachable!(),
            Stage::Turning => unreachable!(),
            Stage::Ended => unreachable!(),
        }
    }
}
