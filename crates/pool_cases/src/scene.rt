//! What a case begins with.

use crate::glossary::Glossary;
use crate::limits::Limits;
use crate::links::Links;
use crate::recipe::thunk_text;
use crate::text::bytes_of;
use anyhow::{Context, Result, bail};
use blob_store::MemKeeper;
use object_name::{Bytes, Kind, MAX_OUTPUTS, Many, Name, TryCopy};
use reduction_cache::encode_note;
use std::alloc::{AllocError, Global};
use thunk_codec::card;

/// What a case begins with: a store whose calls with listed numbers fail, links, and limits.
#[derive(Drop)]
pub struct Scene {
    pub alloc: Global,
    pub glossary: Glossary,
    objects: Many<(Name, Bytes)>,
    notes: Many<(Name, Bytes)>,
    failing: Many<u64>,
    pub links: Links,
    pub limits: Limits,
}

/// The text of a note: that a thunk has these outputs.
fn note(alloc: Global, thunk: Name, outputs: &[Name]) -> Result<Bytes> {
    if outputs.is_empty() {
        bail!("a note names outputs");
    }
    if outputs.len() > MAX_OUTPUTS {
        bail!("a note names 64 outputs at most");
    }
    match thunk.kind() {
        Kind::Thunk => Ok(encode_note(alloc, &thunk, outputs)?),
        Kind::Value => bail!("a note is of a thunk"),
    }
}

impl Scene {
    /// Nothing is held, and there are no links.
    pub fn new(alloc: Global) -> Scene {
        Scene {
            alloc,
            glossary: Glossary::new(alloc),
            objects: Many::new(alloc),
            notes: Many::new(alloc),
            failing: Many::new(alloc),
            links: Links::None,
            limits: Limits::usual(),
        }
    }

    /// The bytes of the object that a line names, with its short name.
    fn read<'a>(&self, kind: &str, rest: &'a str) -> Result<(&'a str, Bytes)> {
        let (short, rest) = rest.split_once(' ').unwrap_or((rest, ""));
        let bytes = match kind {
            "value" => bytes_of(self.alloc, rest)?,
            "card" => card(self.alloc, short.as_bytes())?,
            "thunk" => thunk_text(self.alloc, &self.glossary, rest)?,
            _ => bail!("{kind} is no kind of object"),
        };
        Ok((short, bytes))
    }

    /// Names an object that isn't held.
    pub fn name(&mut self, kind: &str, rest: &str) -> Result<()> {
        let (short, bytes) = self.read(kind, rest)?;
        self.glossary.add(short, bytes)?;
        Ok(())
    }

    /// Holds an object.
    pub fn hold(&mut self, kind: &str, rest: &str) -> Result<()> {
        let (short, bytes) = self.read(kind, rest)?;
        let copy = bytes.copy(self.alloc)?;
        let name = self.glossary.add(short, bytes)?;
        self.objects.push((name, copy))?;
        Ok(())
    }

    /// Holds the bytes of another object under the name of an object.
    pub fn mislay(&mut self, rest: &str) -> Result<()> {
        let (short, other) = rest.split_once(' ').context("two objects are named")?;
        let name = self.glossary.find(short)?.name;
        let bytes = self.glossary.find(other)?.bytes.copy(self.alloc)?;
        self.objects.push((name, bytes))?;
        Ok(())
    }

    /// Holds the note that a thunk has these outputs.
    pub fn note(&mut self, rest: &str) -> Result<()> {
        let (short, outputs) = rest.split_once(' ').context("a note names outputs")?;
        let thunk = self.glossary.find(short)?.name;
        let mut names = Vec::new(self.alloc);
        'outputs: for output in outputs.split(' ') {
            names.push(self.glossary.find(output)?.name)?;
        }
        let text = note(self.alloc, thunk, names.as_slice())?;
        self.notes.push((thunk, text))?;
        Ok(())
    }

    /// Calls of the store that fail.
    pub fn fail(&mut self, rest: &str) -> Result<()> {
        'calls: for call in rest.split(' ') {
            self.failing
                .push(call.parse::<u64>().ok().context("no number")?)?;
        }
        Ok(())
    }

    /// The store, as it is before a forcing.
    pub fn keeper(&self) -> Result<MemKeeper, AllocError> {
        let mut failing = Many::new(self.alloc);
        'calls: for call in self.failing.as_slice() {
            failing.push(*call)?;
        }
        let objects = self.objects.copy(self.alloc)?;
        let notes = self.notes.copy(self.alloc)?;
        MemKeeper::new(self.alloc, objects, notes, failing)
    }
}
