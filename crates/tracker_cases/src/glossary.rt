//! What thunks and values are called: a thunk by a word that begins with a capital letter, a value by any other.

use anyhow::{Context, Result, bail};
use object_name::{Bytes, Kind, Name, name_of};
use std::alloc::{AllocError, Global};
use thunk_codec::Ref;

/// What the bytes of a thunk begin with.
const THUNK: &[u8] = b"gg-thunk ";

/// A word, and the name of what it calls.
#[derive(Drop)]
struct Entry {
    word: String,
    name: Name,
}

/// The words that were used.
#[derive(Drop)]
pub struct Glossary {
    alloc: Global,
    entries: Vec<Entry>,
}

/// Whether a word calls a thunk.
fn is_thunk(word: &str) -> bool {
    match word.as_bytes() {
        [first, ..] => first.is_ascii_uppercase(),
        [] => false,
    }
}

/// The name of what a word calls.
pub fn name(alloc: Global, word: &str) -> Result<Name> {
    let mut bytes = Bytes::new(alloc);
    if is_thunk(word) {
        bytes.append(THUNK)?;
    }
    bytes.append(word.as_bytes())?;
    match name_of(bytes.as_slice()) {
        Ok(name) => Ok(name),
        Err(_) => bail!("{word} is too long"),
    }
}

impl Glossary {
    pub fn new(alloc: Global) -> Glossary {
        Glossary {
            alloc,
            entries: Vec::new(alloc),
        }
    }

    /// The name of what a word calls. From here on the name is spelled by the word.
    pub fn name(&mut self, word: &str) -> Result<Name> {
        if word.is_empty() {
            bail!("two blanks, or one at the end");
        }
        let name = name(self.alloc, word)?;
        if self.word(&name).is_none() {
            let word = String::from_str(self.alloc, word)?;
            self.entries.push(Entry { word, name })?;
        }
        Ok(name)
    }

    /// The name of a thunk.
    pub fn thunk(&mut self, word: &str) -> Result<Name> {
        let name = self.name(word)?;
        match name.kind() {
            Kind::Thunk => Ok(name),
            Kind::Value => bail!("{word} is a value"),
        }
    }

    /// The names of what some words call.
    pub fn names(&mut self, words: &str) -> Result<Vec<Name>> {
        let mut names = Vec::new(self.alloc);
        if words.is_empty() {
            return Ok(names);
        }
        'words: for word in words.split(' ') {
            names.push(self.name(word)?)?;
        }
        Ok(names)
    }

    /// What a word refers to: a value, or an output of a thunk, with `#` and its number.
    fn reference(&mut self, word: &str) -> Result<Ref> {
        match word.split_once('#') {
            Some((word, number)) => {
                let index = number.parse::<u32>().ok().context("no output")?;
                Ok(Ref::Out(self.thunk(word)?, index))
            }
            None => {
                let name = self.name(word)?;
                match name.kind() {
                    Kind::Value => Ok(Ref::Value(name)),
                    Kind::Thunk => bail!("{word} is a thunk, and has outputs"),
                }
            }
        }
    }

    /// What some words refer to.
    pub fn refs(&mut self, words: &str) -> Result<Vec<Ref>> {
        let mut refs = Vec::new(self.alloc);
        if words.is_empty() {
            return Ok(refs);
        }
        'words: for word in words.split(' ') {
            refs.push(self.reference(word)?)?;
        }
        Ok(refs)
    }

    /// The word of a name.
    fn word(&self, name: &Name) -> Option<&str> {
        'entries: for entry in &self.entries {
            if entry.name == *name {
                return Some(entry.word.as_str());
            }
        }
        None
    }

    /// The words of some names, or `none`.
    pub fn spelled(&self, names: &[Name]) -> Result<String, AllocError> {
        if names.is_empty() {
            return String::from_str(self.alloc, "none");
        }
        let mut text = String::new(self.alloc);
        'names: for name in names {
            if !text.is_empty() {
                text.push(' ')?;
            }
            text.push_str(self.word(name).unwrap_or("?"))?;
        }
        Ok(text)
    }
}
