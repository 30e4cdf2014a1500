//! Sets of references, in the order in which they were put in.

ghost use Rattle.std.specs.Prelude.{◌≡◌, ◌++◌, ◌∷◌, [], false, map, OnOk};
ghost use Rattle.dep_tracker.specs.Walk.{has};
ghost use Rattle.dep_tracker.specs.Known.{same_ref};
ghost use Rattle.dep_tracker.specs.RefSet.{node_of, ref_of};

use indexmap::IndexSet;
use object_name::Name;
use std::alloc::{AllocError, Global};
use std::marker::Model;
use thunk_codec::Ref;

/// A reference, as it is found by its hash.
#[derive(Clone, Copy, Debug, PartialEq, Eq, Hash)]
pub(crate) enum Node {
    Value(Name),
    Out(Name, u32),
}

impl Node {
    fn of(reference: &Ref) -> Node
        ensures { result ≡ node_of reference.now }
    {
        match reference {
            Ref::Value(name) => Node::Value(*name),
            Ref::Out(name, index) => Node::Out(*name, *index),
        }
    }
}

/// Some references, each once and in order. Contracts see them as a list.
#[derive(Drop)]
pub(crate) struct RefSet(IndexSet<Node>);

impl Model for RefSet {
    ghost use Rattle.std.specs.Prelude.{List, map};
    ghost use Rattle.thunk_codec.specs.declared.reference.Ref.{Ref};
    ghost use Rattle.dep_tracker.specs.RefSet.{ref_of};

    ghost Value = { List Ref };

    ghost view = { λ m. map ref_of m.0.keys };
}

impl RefSet {
    pub(crate) fn new(alloc: Global) -> Self
        ensures { result ≡ [] }
    {
        RefSet(IndexSet::new(alloc))
    }

    pub(crate) fn has(&self, reference: &Ref) -> bool
        ensures { result ≡ has same_ref self.now reference.now }
    {
        self.0.contains(&Node::of(reference))
    }

    /// Appends a reference that is new.
    pub(crate) fn push(&mut self, reference: &Ref) -> Result<(), AllocError>
        requires { has same_ref self.old reference.now ≡ false }
        ensures { OnOk result (self.new ≡ self.old ++ reference.now ∷ []) }
    {
        self.0.insert(Node::of(reference))?;
        Ok(())
    }

    /// The same references, in order.
    pub(crate) fn nodes(&self) -> &[Node]
        ensures { map ref_of result.now ≡ self.now }
    {
        self.0.as_slice()
    }
}
