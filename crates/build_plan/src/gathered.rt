//! What steps gather.

use object_name::{Bytes, Name};

/// What a step gathers where tools aren't run.
#[derive(Debug, Drop)]
pub enum Gathered {
    /// The bytes of a file, which are no thunk's.
    Plain(Bytes),
    /// The output with this index, from 0, of the thunk of this name.
    Output(Name, u32),
}
