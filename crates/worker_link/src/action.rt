//! What a link does with a reply.

/// What a call of `receive` does with the reply on the job that it runs.
#[derive(Clone, Copy, Debug, PartialEq, Eq)]
pub enum Action {
    /// Gives it.
    Answer,
    /// Fails and drops it.
    Lose,
    /// Fails, and gives it at the next call.
    Delay,
    /// Gives it, and again at the next call.
    Repeat,
}
