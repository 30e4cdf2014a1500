//! What is seen of a forcing: how it ended, what it wrote, and what is kept.

use crate::ending::spelled;
use crate::glossary::Glossary;
use anyhow::Result;
use blob_store::MemKeeper;
use force_pool::ForceFault;
use need_eval::Values;
use object_name::{Bytes, Many, Name};
use std::alloc::Global;

/// What is seen of a forcing.
#[derive(Drop)]
pub struct Seen {
    /// The values, or why there are none, as text.
    pub end: String,
    /// The names of what was written, in order.
    pub puts: Many<Name>,
    objects: Many<(Name, Bytes)>,
    notes: Many<(Name, Bytes)>,
}

impl Seen {
    pub fn new(
        alloc: Global,
        glossary: &Glossary,
        end: &Result<Values, ForceFault>,
        keeper: MemKeeper,
    ) -> Result<Seen> {
        let end = spelled(alloc, glossary, end)?;
        let puts = keeper.puts(alloc)?;
        let (objects, notes) = keeper.into_content();
        Ok(Seen {
            end,
            puts,
            objects,
            notes,
        })
    }

    /// In what it differs from another, where it does.
    pub fn difference(&self, other: &Seen) -> Option<&'static str> {
        if self.end.as_str() != other.end.as_str() {
            return Some("the end");
        }
        if self.puts != other.puts {
            return Some("the writes");
        }
        if self.objects != other.objects {
            return Some("the objects");
        }
        if self.notes != other.notes {
            return Some("the notes");
        }
        None
    }

    /// Whether what it wrote is what another wrote first.
    pub fn is_prefix(&self, other: &Seen) -> bool {
        other.puts.as_slice().starts_with(self.puts.as_slice())
    }
}
