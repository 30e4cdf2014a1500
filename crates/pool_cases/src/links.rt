//! The links of a case.

use object_name::{Bytes, Many};
use worker_link::Action;

/// The links of a case.
#[derive(Drop)]
pub enum Links {
    /// None was named.
    None,
    /// So many that run each job inside.
    Inside(u32),
    /// One for each list of actions.
    Scripts(Vec<Many<Action>>),
    /// One that says the same to each job and gives its first reply twice, the second time with another word.
    Liar { word: Bytes, lie: Bytes },
    /// Two with a gate before the reply on lease 0, which opens once the outcome of lease 2 was given.
    Gates,
    /// One that gives so many replies and hangs then until the other one is closed, which gives none before.
    Hanging(u32),
}
