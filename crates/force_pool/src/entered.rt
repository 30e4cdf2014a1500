//! What comes of a reply that is entered into the book.

use job_wire::Answer;
use object_name::Name;

/// What comes of a reply that is entered.
#[derive(Debug, Drop)]
pub(crate) enum Entered {
    /// It is in the book, or is of no use.
    Done,
    /// The job has an outcome with another answer.
    Differs {
        resolved: Name,
        first: Answer,
        second: Answer,
    },
    /// Memory was refused.
    Memory,
}
