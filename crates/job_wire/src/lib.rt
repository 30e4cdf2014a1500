//! Frames: jobs that are sent, outcomes that come back, and how the bytes of a session are cut into them.
#![tactic(auto)]

mod answer;
mod cutter;
mod fault;
mod field;
mod frame;
mod front;
mod job;
pub mod laws;
mod list;
mod message;
mod number;
mod outcome;
mod sealed;

pub use answer::Answer;
pub use cutter::{CutFault, Cutter};
pub use frame::{encode_frame, encode_start};
pub use message::Message;
pub use outcome::fit_together;
pub use sealed::{Sealed, seal};
