//! Objects under short names.

use anyhow::{Context, Result, bail};
use object_name::{Bytes, Name, SPELLING_LEN, name_of};
use std::alloc::{AllocError, Global};

/// An object under a short name.
#[derive(Drop)]
pub struct Entry {
    short: String,
    pub name: Name,
    pub bytes: Bytes,
}

/// Objects under short names, whether a store holds them or not.
#[derive(Drop)]
pub struct Glossary {
    alloc: Global,
    entries: Vec<Entry>,
}

/// The 52 characters of a name.
fn spelling(alloc: Global, name: &Name) -> Result<String, AllocError> {
    let mut spelling = [0u8; SPELLING_LEN];
    name.spell(&mut spelling);
    let mut text = String::new(alloc);
    for byte in spelling {
        text.push(char::from(byte))?;
    }
    Ok(text)
}

impl Glossary {
    pub fn new(alloc: Global) -> Glossary {
        Glossary {
            alloc,
            entries: Vec::new(alloc),
        }
    }

    fn position(&self, short: &str) -> Option<usize> {
        self.entries
            .iter()
            .position(|entry| entry.short.as_str() == short)
    }

    /// Gives an object a short name, which no other has.
    pub fn add(&mut self, short: &str, bytes: Bytes) -> Result<Name> {
        if self.position(short).is_some() {
            bail!("two objects are called {short}");
        }
        let Ok(name) = name_of(bytes.as_slice()) else {
            bail!("the object {short} is too long");
        };
        let short = String::from_str(self.alloc, short)?;
        self.entries.push(Entry { short, name, bytes })?;
        Ok(name)
    }

    /// The object of a short name.
    pub fn find(&self, short: &str) -> Result<&Entry> {
        let entry = match self.position(short) {
            Some(place) => self.entries.get(place),
            None => None,
        };
        entry.context(format_args!("no object is called {short}"))
    }

    /// The short name of an object, or the name itself where it has none.
    pub fn spelled(&self, name: &Name) -> Result<String, AllocError> {
        'entries: for entry in &self.entries {
            if entry.name == *name {
                return String::from_str(self.alloc, entry.short.as_str());
            }
        }
        spelling(self.alloc, name)
    }

    /// The same of some names, in order.
    pub fn all_spelled(&self, names: &[Name]) -> Result<String, AllocError> {
        let mut text = String::new(self.alloc);
        'names: for name in names {
            if !text.is_empty() {
                text.push(' ')?;
            }
            text.push_str(self.spelled(name)?.as_str())?;
        }
        Ok(text)
    }
}
