//! Changes of trees.

use object_name::Bytes;
use thunk_codec::Path;

/// A change of a tree.
#[derive(Debug, PartialEq, Eq, Drop)]
pub enum Change {
    /// The file at a path gets these bytes, in place of what was there.
    Written(Path, Bytes),
    /// Nothing is left at a path.
    Removed(Path),
}
