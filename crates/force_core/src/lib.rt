//! The shared book: which jobs were offered, which leases of them are out, and what came of them.
#![tactic(auto)]

mod book;
mod entry;
mod event;
mod index;
pub mod laws;
mod offer;
mod reply;
mod tasks;

pub use book::{Book, Start};
pub use event::Event;
pub use offer::{Need, Offer};
pub use reply::Reply;
