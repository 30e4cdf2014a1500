//! A tracker beside a plain program.

use crate::call::{Answered, Call};
use crate::glossary::Glossary;
use crate::plain::Plain;
use crate::tracked::Tracked;
use anyhow::{Result, bail};
use object_name::Name;
use std::alloc::Global;
use std::marker::Model;
use thunk_codec::Ref;

/// A tracker and a plain program, which take the same calls.
#[derive(Drop)]
pub struct Beside {
    tracked: Tracked,
    plain: Plain,
}

// Contracts see nothing of it.
impl Model for Beside {
    ghost Value = { Unit {0} };

    ghost view = { λ _. tt };
}

impl Beside {
    pub fn new(alloc: Global, roots: Vec<Ref>) -> Result<Beside> {
        Ok(Beside {
            tracked: Tracked::new(alloc, roots.as_slice())?,
            plain: Plain::new(alloc, roots)?,
        })
    }

    pub fn unknown(&self) -> &[Name] {
        self.tracked.unknown()
    }

    pub fn ready(&self) -> &[Name] {
        self.tracked.ready()
    }

    /// Makes a call on both, where it may be made.
    pub fn answer(&mut self, call: Call) -> Result<Answered> {
        let one = self.tracked.answer(&call)?;
        let other = self.plain.answer(call)?;
        if one != other {
            bail!("the tracker answers {one}, the plain program {other}");
        }
        Ok(one)
    }

    /// Fails where the two differ.
    pub fn compare(&self, glossary: &Glossary) -> Result<()> {
        let unknown = self.plain.unknown()?;
        let ready = self.plain.ready()?;
        if self.tracked.unknown() != unknown.as_slice() {
            let unknown = glossary.spelled(unknown.as_slice())?;
            let tracked = glossary.spelled(self.tracked.unknown())?;
            bail!("unknown is {tracked}, by the plain program {unknown}");
        }
        if self.tracked.ready() != ready.as_slice() {
            let ready = glossary.spelled(ready.as_slice())?;
            let tracked = glossary.spelled(self.tracked.ready())?;
            bail!("ready is {tracked}, by the plain program {ready}");
        }
        Ok(())
    }
}
