//! Calls of a tracker, and what comes of them.

use object_name::Name;
use std::fmt;
use thunk_codec::Ref;

/// A call of a tracker.
#[derive(Drop)]
pub enum Call {
    /// Adds the thunk of some references: the first is its function, the others its inputs.
    Add { name: Name, refs: Vec<Ref> },
    /// Takes the outputs of a thunk.
    Absorb { name: Name, outputs: Vec<Name> },
    /// Says that a thunk can't be run ahead.
    Bar { name: Name },
}

/// What comes of a call.
#[derive(Clone, Copy, PartialEq)]
pub enum Answered {
    Done,
    /// The thunk to add isn't unknown, so no call is made.
    NotUnknown,
    /// The thunk to absorb isn't ready, so no call is made.
    NotReady,
    /// The thunk to bar is neither unknown nor ready, so no call is made.
    Neither,
    /// As many thunks were added as may be.
    Full,
}

impl fmt::Display for Answered {
    fn fmt<W: fmt::Write>(&self, f: &mut fmt::Formatter<W>) -> fmt::Result {
        f.write_str(match self {
            Answered::Done => "done",
            Answered::NotUnknown => "not unknown",
            Answered::NotReady => "not ready",
            Answered::Neither => "neither unknown nor ready",
            Answered::Full => "full",
        })
    }
}
