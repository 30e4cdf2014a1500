//! Evaluation by need: the values of references, from a store, thunk by thunk.
#![tactic(auto)]

mod evaluating;
mod fault;
mod frame;
mod jobs;
pub mod laws;
mod prepared;
mod reading;
mod reference_turns;
mod stage;
mod supplying;
mod thunk_turns;
mod waiting;
mod walker;
mod writing;

pub use evaluating::{Values, evaluate};
pub use fault::{EvalFault, Refusal};
pub use prepared::Prepared;
pub use walker::{Walked, Walker};
