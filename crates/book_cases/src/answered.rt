//! What is answered to a call.

use std::fmt;

/// What is answered to a call.
#[derive(Clone, Copy, PartialEq)]
pub enum Answered {
    /// The job has this new number.
    Offered(u64),
    /// The job has this number already.
    Known(u64),
    /// There is no room ahead.
    Full,
    /// A lease of a job.
    Lease { lease: u64, id: u64 },
    /// The outcome is the first of its job.
    First,
    /// The first one was the same.
    Again,
    /// The first one was another.
    Differs,
    /// The lease was never given out.
    Stray,
    /// The lease is lost.
    Lost,
    /// The lease isn't open, or there is no room for a loss.
    MayNot,
    /// The book is closed.
    Closed,
    /// A job was done.
    Done,
    /// A job failed with this status.
    Failed(u8),
    /// A number.
    Number(u64),
    /// There is none.
    Nothing,
}

impl fmt::Display for Answered {
    fn fmt<W: fmt::Write>(&self, f: &mut fmt::Formatter<W>) -> fmt::Result {
        match self {
            Answered::Offered(id) => write!(f, "offered {id}"),
            Answered::Known(id) => write!(f, "known {id}"),
            Answered::Full => f.write_str("full"),
            Answered::Lease { lease, id } => write!(f, "lease {lease} job {id}"),
            Answered::First => f.write_str("first"),
            Answered::Again => f.write_str("again"),
            Answered::Differs => f.write_str("differs"),
            Answered::Stray => f.write_str("stray"),
            Answered::Lost => f.write_str("lost"),
            Answered::MayNot => f.write_str("may not"),
            Answered::Closed => f.write_str("closed"),
            Answered::Done => f.write_str("done"),
            Answered::Failed(status) => write!(f, "failed {status}"),
            Answered::Number(number) => write!(f, "{number}"),
            Answered::Nothing => f.write_str("none"),
        }
    }
}
