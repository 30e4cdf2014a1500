//! Puts that were made.

ghost use Rattle.std.specs.Prelude.{◌≡◌};
ghost use Rattle.blob_store.specs.Puts.{write_of, write_name};

use object_name::{Bytes, Name};

/// A put that was made, among the objects or the notes.
#[derive(Debug, Drop)]
pub enum Put {
    Object(Name, Bytes),
    Note(Name, Bytes),
}

impl Put {
    /// The name under which the bytes were put.
    pub fn name(&self) -> Name
        ensures { result ≡ write_name (write_of self.now) }
    {
        match self {
            Put::Object(name, _) => *name,
            Put::Note(name, _) => *name,
        }
    }
}
