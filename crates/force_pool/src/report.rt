//! What a call is given, and what it gives back.

use crate::fault::ForceFault;
use force_core::Event;
use need_eval::Values;
use object_name::Many;

/// The limits of a call.
#[derive(Clone, Copy, Debug)]
pub struct Setup {
    /// The greatest number of steps of the evaluation.
    pub budget: u32,
    /// How often a failed call of the keeper, or of a link, is tried again: at most 16.
    pub retries: u32,
    /// How many leases of one job may be out at a time: 1 to 4.
    pub copies: u32,
}

/// What happened in a call.
#[derive(Debug, Drop)]
pub struct Report {
    /// How many leases were started.
    pub starts: u64,
    /// How many jobs got a first outcome.
    pub replies: u64,
    /// How many leases were lost.
    pub losses: u64,
    /// All that happened to the book, in order.
    pub history: Many<Event>,
}

/// What a call gives back.
#[derive(Drop)]
pub struct PoolEnd<L> {
    /// The values, or why there are none.
    pub end: Result<Values, ForceFault>,
    pub report: Report,
    /// The links that were given, in order.
    pub links: Many<L>,
}
