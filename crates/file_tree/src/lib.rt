//! Files by their paths, and the references that they stand for.
#![tactic(auto)]

mod change;
mod folder_tree;
mod item;
mod mem_tree;
mod model_fault;
mod place;
mod refusal;
mod retries;
mod tree;
mod wanted_refs;

pub use change::Change;
pub use folder_tree::{FolderTree, STORE};
pub use item::Item;
pub use mem_tree::MemTree;
pub use model_fault::{ApplyFault, PlanFault, Reason};
pub use place::{place_after, refused_at};
pub use refusal::{FileRefusal, WantFault};
pub use retries::{read_again, remove_again, write_again};
pub use tree::{FileRead, Tree};
pub use wanted_refs::{ref_of_item, wanted};
