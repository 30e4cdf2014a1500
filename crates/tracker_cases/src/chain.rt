//! Chains of thunks, each of which has an output of the next as its input.

use crate::call::Answered;
use crate::glossary::name;
use crate::tracked::Tracked;
use anyhow::{Context, Result, bail};
use object_name::Name;
use std::alloc::Global;
use thunk_codec::Ref;

/// A tracker of a chain whose thunks have these numbers and names.
#[derive(Drop)]
struct Chain {
    alloc: Global,
    /// The name of the value that is the function of all, and their one output.
    value: Name,
    names: Vec<Name>,
    tracked: Tracked,
}

/// The names of so many thunks.
fn names(alloc: Global, length: u32) -> Result<Vec<Name>> {
    let mut names = Vec::new(alloc);
    'names: for number in 0..length {
        let word = format!(in alloc; "T{number}")?;
        names.push(name(alloc, word.as_str())?)?;
    }
    Ok(names)
}

impl Chain {
    fn new(alloc: Global, length: u32) -> Result<Chain> {
        let names = names(alloc, length)?;
        let mut roots = Vec::new(alloc);
        if let Some(first) = names.first() {
            roots.push(Ref::Out(*first, 0))?;
        }
        Ok(Chain {
            alloc,
            value: name(alloc, "value")?,
            tracked: Tracked::new(alloc, roots.as_slice())?,
            names,
        })
    }

    fn name(&self, number: usize) -> Result<Name> {
        self.names.get(number).copied().context("no thunk")
    }

    /// The thunk of a number, as a list, which is empty behind the last one.
    fn one(&self, number: usize) -> &[Name] {
        match self.names.get(number) {
            Some(name) => std::slice::from_ref(name),
            None => &[],
        }
    }

    /// Fails unless these are unknown and ready.
    fn expect(&self, unknown: &[Name], ready: &[Name], number: usize) -> Result<()> {
        if self.tracked.unknown() != unknown {
            bail!("wrong unknown thunks at thunk {number}");
        }
        if self.tracked.ready() != ready {
            bail!("wrong ready thunks at thunk {number}");
        }
        Ok(())
    }

    /// The references of the thunk of a number: its function, and an output of the next one.
    fn refs(&self, number: usize) -> Result<Vec<Ref>> {
        let mut refs = Vec::new(self.alloc);
        refs.push(Ref::Value(self.value))?;
        if let Some(next) = self.names.get(number.saturating_add(1)) {
            refs.push(Ref::Out(*next, 0))?;
        }
        Ok(refs)
    }

    /// Adds the thunk of a number, which is unknown alone. False where there is no room, and then nothing changes.
    fn add(&mut self, number: usize) -> Result<bool> {
        self.expect(self.one(number), &[], number)?;
        let name = self.name(number)?;
        let refs = self.refs(number)?;
        match self.tracked.add(&name, refs.as_slice())? {
            Answered::Done => Ok(true),
            Answered::Full => {
                self.expect(self.one(number), &[], number)?;
                Ok(false)
            }
            _ => bail!("thunk {number} isn't unknown"),
        }
    }

    /// Absorbs the thunk of a number, which is ready alone.
    fn absorb(&mut self, number: usize) -> Result<()> {
        self.expect(&[], self.one(number), number)?;
        let name = self.name(number)?;
        match self.tracked.absorb(&name, &[self.value])? {
            Answered::Done => Ok(()),
            _ => bail!("thunk {number} isn't ready"),
        }
    }

    /// Adds the thunks from the first one on, as far as there is room. Gives how many were added.
    fn add_all(&mut self) -> Result<usize> {
        'thunks: for number in 0..self.names.len() {
            if !self.add(number)? {
                return Ok(number);
            }
        }
        Ok(self.names.len())
    }

    /// Absorbs the thunks from the last one on.
    fn absorb_all(&mut self) -> Result<()> {
        'thunks: for number in (0..self.names.len()).rev() {
            self.absorb(number)?;
        }
        self.expect(&[], &[], 0)
    }
}

/// Adds the thunks of a chain from the first one on, and absorbs them from the last one on, unless there was no room for all.
pub fn follow(alloc: Global, length: u32) -> Result<String> {
    let mut chain = Chain::new(alloc, length)?;
    let added = chain.add_all()?;
    if added < chain.names.len() {
        return Ok(format!(in alloc; "{added} added, then full")?);
    }
    chain.absorb_all()?;
    Ok(format!(in alloc; "{added} added, {added} absorbed")?)
}
