//! A gate that one lease passes only after another.

use crate::flag::Flag;
use crate::twist_link::Twist;
use force_pool::Gate;
use thunk_codec::Outcome;

/// The lease that waits at the gate.
const WAITING: u64 = 0;

/// The lease whose outcome opens it.
const OPENING: u64 = 2;

/// A gate that lease 0 passes once the outcome of lease 2 was given.
#[derive(Drop)]
pub struct LateGate {
    /// Whether that outcome was given.
    pub open: Flag,
    /// Whether the lease went on without it.
    pub missed: Flag,
}

impl Gate for LateGate {
    fn enter(&self, lease: u64) {
        if lease == WAITING && !self.open.is_raised_in_time() {
            self.missed.raise();
        }
    }
}

/// Raises a flag once the outcome of lease 2 is given.
#[derive(Drop)]
pub struct Opening {
    pub open: Flag,
}

impl Twist for Opening {
    fn given(&mut self, lease: u64, outcome: Outcome) -> Outcome {
        if lease == OPENING {
            self.open.raise();
        }
        outcome
    }
}
