//! A keeper that records its writes.

ghost use Rattle.std.specs.Prelude.{◌≡◌, IfOk, OnOk, OnErr};
ghost use Rattle.object_name.specs.Causes.{HasCause};
ghost use Rattle.blob_store.specs.Memory.{store_of};

use blob_store::{Keeper, MemKeeper};
use object_name::{Bytes, Many, Name, Trouble};
use std::alloc::{AllocError, Global};

/// Among what a write put its bytes.
#[derive(Clone, Copy)]
pub enum Shelf {
    Objects,
    Notes,
}

/// A write that was made: the name, and the number of the call.
#[derive(Clone, Copy)]
pub struct Write {
    pub shelf: Shelf,
    pub name: Name,
    pub call: u64,
}

/// A keeper in memory that records the writes that were made. It tells nothing.
#[derive(Drop)]
pub struct Recorder {
    keeper: MemKeeper,
    writes: Vec<Write>,
}

impl Recorder {
    pub fn new(alloc: Global, keeper: MemKeeper) -> Self {
        Recorder {
            keeper,
            writes: Vec::new(alloc),
        }
    }

    /// How many calls were made.
    pub fn calls(&self) -> u64 {
        self.keeper.calls()
    }

    /// The objects and the notes that it keeps, and the writes that were made.
    pub fn into_recorded(self) -> (Many<(Name, Bytes)>, Many<(Name, Bytes)>, Vec<Write>) {
        let Recorder { keeper, writes } = self;
        let (objects, notes) = keeper.into_content();
        (objects, notes, writes)
    }
}

impl Keeper for Recorder {
    ghost tells = { ⊥ };

    ghost store = { λ r. store_of r.keeper };

    ghost writes = { λ r. r.keeper.writes };

    ghost faults = { λ r. r.keeper.calls.faults };

    ghost calls = { λ r. r.keeper.calls.count };

    fn get(&mut self, alloc: Global, name: &Name) -> Result<Option<Bytes>, Trouble> {
        self.keeper.get(alloc, name)
    }

    fn put(&mut self, name: &Name, bytes: &[u8]) -> Result<(), Trouble> {
        self.keeper.put(name, bytes)?;
        let call = self.keeper.calls();
        Ok(record(&mut self.writes, Shelf::Objects, name, call)?)
    }

    fn get_note(&mut self, alloc: Global, name: &Name) -> Result<Option<Bytes>, Trouble> {
        self.keeper.get_note(alloc, name)
    }

    fn put_note(&mut self, name: &Name, bytes: &[u8]) -> Result<(), Trouble> {
        self.keeper.put_note(name, bytes)?;
        let call = self.keeper.calls();
        Ok(record(&mut self.writes, Shelf::Notes, name, call)?)
    }
}

/// Adds a write.
fn record(writes: &mut Vec<Write>, shelf: Shelf, name: &Name, call: u64) -> Result<(), AllocError> {
    let name = *name;
    writes.push(Write { shelf, name, call })?;
    Ok(())
}
