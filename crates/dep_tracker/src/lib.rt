//! Which thunks are in reach of what is wanted, and which of them can be run ahead.
#![tactic(auto)]

mod graph;
pub mod laws;
mod listing;
mod names;
mod readying;
mod ref_set;
mod tracker;
mod valued;
mod walk;

pub use tracker::{MAX_NODES, TrackFault, Tracker};
