//! The graph of thunks, as far as it is known.

ghost use Rattle.std.specs.Prelude.{◌≡◌, ◌<◌, false, length, slice_get, Some, OnOk};
ghost use Rattle.std.specs.Option.{option_map};
ghost use Rattle.dep_tracker.specs.Known.{begun, look_up, has_entry, output_at};
ghost use Rattle.dep_tracker.specs.Tracked.{learn, Add, Absorb};

use indexmap::IndexMap;
use object_name::{Many, Name};
use std::alloc::{AllocError, Global};
use std::marker::Model;
use thunk_codec::{Ref, Thunk};

/// What is wanted, the thunks that were added, and the outputs of those that were absorbed.
#[derive(Drop)]
pub(crate) struct Graph {
    roots: Many<Ref>,
    added: IndexMap<Name, Thunk>,
    absorbed: IndexMap<Name, Many<Name>>,
}

impl Model for Graph {
    ghost use Rattle.dep_tracker.specs.Known.{Known};

    ghost Value = { Known };

    ghost view = { λ g. record { roots = g.roots; added = g.added.entries; absorbed = g.absorbed.entries } };
}

impl Graph {
    /// Nothing but what is wanted.
    pub(crate) fn new(alloc: Global, roots: Many<Ref>) -> Self
        ensures { result ≡ begun roots }
    {
        Graph {
            roots,
            added: IndexMap::new(alloc),
            absorbed: IndexMap::new(alloc),
        }
    }

    pub(crate) fn roots(&self) -> &[Ref]
        ensures { result.now ≡ self.now.roots }
    {
        self.roots.as_slice()
    }

    /// How many thunks were added.
    pub(crate) fn len(&self) -> usize
        ensures { result ≡ length self.now.added }
    {
        self.added.len()
    }

    /// The thunk that was added at a place, and its name.
    pub(crate) fn thunk_at(&self, place: usize) -> (&Name, &Thunk)
        requires { place < length self.now.added }
        ensures { slice_get self.now.added place ≡ Some (result.0.now, result.1.now) }
    {
        self.added.get_index(place).unwrap()
    }

    /// The thunk that was added by a name.
    pub(crate) fn thunk(&self, name: &Name) -> Option<&Thunk>
        ensures { option_map (λ thunk. thunk.now) result ≡ look_up self.now.added name.now }
    {
        self.added.get(name)
    }

    pub(crate) fn is_added(&self, name: &Name) -> bool
        ensures { result ≡ has_entry self.now.added name.now }
    {
        self.added.contains_key(name)
    }

    pub(crate) fn is_absorbed(&self, name: &Name) -> bool
        ensures { result ≡ has_entry self.now.absorbed name.now }
    {
        self.absorbed.contains_key(name)
    }

    /// The outputs of a thunk that was absorbed.
    fn outputs(&self, name: &Name) -> Option<&Many<Name>>
        ensures { option_map (λ outputs. outputs.now) result ≡ look_up self.now.absorbed name.now }
    {
        self.absorbed.get(name)
    }

    /// An output of a thunk that was absorbed.
    pub(crate) fn output(&self, name: &Name, index: u32) -> Option<Name>
        ensures { result ≡ output_at self.now.absorbed name.now index }
    {
        let outputs = self.outputs(name)?;
        outputs.as_slice().get(index as usize).copied()
    }

    /// Adds a thunk.
    pub(crate) fn add(&mut self, name: Name, thunk: Thunk) -> Result<(), AllocError>
        requires { has_entry self.old.added name ≡ false }
        ensures { OnOk result (self.new ≡ learn self.old (Add name thunk)) }
    {
        self.added.insert(name, thunk)?;
        Ok(())
    }

    /// Takes the outputs of a thunk.
    pub(crate) fn absorb(&mut self, name: Name, outputs: Many<Name>) -> Result<(), AllocError>
        requires { has_entry self.old.absorbed name ≡ false }
        ensures { OnOk result (self.new ≡ learn self.old (Absorb name outputs)) }
    {
        self.absorbed.insert(name, outputs)?;
        Ok(())
    }
}
