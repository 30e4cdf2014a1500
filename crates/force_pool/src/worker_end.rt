//! How a worker ends.

ghost use Rattle.std.specs.Prelude.{◌≡◌};
ghost use Rattle.force_pool.specs.Account.{is_going, is_given_up, is_memory};
ghost use Rattle.force_pool.specs.Sums.{first_why};

use job_wire::Answer;
use object_name::Name;

/// Why a worker serves no more leases.
#[derive(Debug, Drop)]
pub(crate) enum WorkerEnd {
    /// It can go on.
    Going,
    /// Its link failed more often than was tried again.
    GaveUp,
    /// Two outcomes of a job have answers that differ.
    Differs {
        resolved: Name,
        first: Answer,
        second: Answer,
    },
    /// Memory was refused.
    Memory,
}

/// Whether the worker can go on.
pub(crate) fn is_going(end: &WorkerEnd) -> bool
    ensures { result ≡ is_going end.now }
{
    matches!(end, WorkerEnd::Going)
}

/// Whether memory was refused.
pub(crate) fn is_memory(end: &WorkerEnd) -> bool
    ensures { result ≡ is_memory end.now }
{
    matches!(end, WorkerEnd::Memory)
}

/// Whether the link was given up.
pub(crate) fn is_given_up(end: &WorkerEnd) -> bool
    ensures { result ≡ is_given_up end.now }
{
    matches!(end, WorkerEnd::GaveUp)
}

/// The first end of two that says that two answers differ.
pub(crate) fn first_why(old: WorkerEnd, new: WorkerEnd) -> WorkerEnd
    ensures { result ≡ first_why old new }
{
    match old {
        WorkerEnd::Differs {
            resolved,
            first,
            second,
        } => WorkerEnd::Differs {
            resolved,
            first,
            second,
        },
        _ => new,
    }
}
