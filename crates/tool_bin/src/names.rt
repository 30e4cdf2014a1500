//! Sets of names.

ghost use Rattle.std.specs.Prelude.{◌≡◌, [], fold, not, IfOk, OnOk};
ghost use Rattle.std.specs.List.{list_all};
ghost use Rattle.text_lines.specs.Among.{is_among};
ghost use Rattle.tool_bin.specs.Names.{with_name};

use indexmap::IndexSet;
use object_name::Bytes;
use std::alloc::{AllocError, Global};
use std::marker::Model;

/// A set of names, in the order in which they came.
#[derive(Drop)]
pub(crate) struct Names(IndexSet<Bytes>);

impl Model for Names {
    ghost use Rattle.std.specs.Prelude.{List, ℕ};

    ghost Value = { List (List ℕ) };

    ghost view = { λ names. names.0.keys };
}

impl Names {
    pub(crate) fn new(alloc: Global) -> Self
        ensures { result ≡ [] }
    {
        Names(IndexSet::new(alloc))
    }

    /// The set of some texts.
    pub(crate) fn of(alloc: Global, texts: &[Bytes]) -> Result<Self, AllocError>
        ensures { IfOk result (λ names. names ≡ fold with_name [] texts.now) }
    {
        let mut names = Names::new(alloc);
        let mut rest = texts;
        'texts: while let [text, others @ ..] = rest {
            names.add(alloc, text)?;
            rest = others;
        }
        Ok(names)
    }

    /// Whether a name is one of them.
    pub(crate) fn contains(&self, name: &Bytes) -> bool
        ensures { result ≡ is_among self.now name.now }
    {
        self.0.contains(name)
    }

    /// Whether each of them is one of others.
    pub(crate) fn are_among(&self, others: &Names) -> bool
        ensures { result ≡ list_all (λ name. is_among others.now name) self.now }
    {
        self.0.as_slice().iter().all(|name| others.contains(name))
    }

    /// Adds a name after the others where it is new, and says whether it was.
    pub(crate) fn add(&mut self, alloc: Global, name: &Bytes) -> Result<bool, AllocError>
        ensures new { IfOk result (λ added. added ≡ not (is_among self.old name.now)) }
        ensures names { OnOk result (self.new ≡ with_name self.old name.now) }
    {
        let copy = Bytes::from_slice(alloc, name.as_slice())?;
        let (_, added) = self.0.insert_full(copy)?;
        Ok(added)
    }
}
