//! What comes of a lease.

use job_wire::Answer;
use object_name::Name;

/// What comes of a lease on a link.
#[derive(Debug, Drop)]
pub(crate) enum Heard {
    /// The reply on it came.
    Answered,
    /// The link failed.
    Failed,
    /// A reply came whose answer differs from that of the job's outcome.
    Differs {
        resolved: Name,
        first: Answer,
        second: Answer,
    },
    /// Memory was refused.
    Memory,
}
