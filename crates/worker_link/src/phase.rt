//! The phases of a link.

/// What may come next on a link. `reopen` and `finish` may come in every phase.
#[derive(Clone, Copy, Debug, PartialEq, Eq)]
pub enum Phase {
    /// Nothing else.
    Shut,
    /// A job may be sent.
    Idle,
    /// A reply may be received.
    Waiting,
}
