//! The store of objects and notes, by name.
#![tactic(auto)]

mod fetching;
mod folder_keeper;
mod keeper;
pub mod laws;
mod mem_keeper;
mod named_bytes;
mod puts;
mod retries;
mod storing;

pub use fetching::fetch;
pub use folder_keeper::FolderKeeper;
pub use keeper::Keeper;
pub use mem_keeper::MemKeeper;
pub use puts::Put;
pub use retries::{get_note_again, put_note_again};
pub use storing::{StoreFault, store};
