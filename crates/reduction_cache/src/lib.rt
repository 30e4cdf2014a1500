//! Notes of what was reduced before.
#![tactic(auto)]

mod hits;
pub mod laws;
mod note;
mod note_keeping;

pub use hits::hit;
pub use note::{encode_note, read_note};
pub use note_keeping::keep_note;
