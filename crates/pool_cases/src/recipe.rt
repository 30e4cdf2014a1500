//! Thunks as they stand in a line.

use crate::glossary::Glossary;
use crate::text::bytes_of;
use crate::wanted::Wanted;
use anyhow::{Context, Result, bail};
use object_name::{Bytes, Many};
use std::alloc::Global;
use thunk_codec::{MakeFault, Path, Ref, Thunk, encode};

/// The path of a word.
fn path(alloc: Global, word: &str) -> Result<Path> {
    Path::read(alloc, word.as_bytes())?.context(format_args!("{word} is no path"))
}

/// The paths of some words.
fn paths(alloc: Global, words: &str) -> Result<Many<Path>> {
    let mut paths = Many::new(alloc);
    'words: for word in words.split(' ') {
        paths.push(path(alloc, word)?)?;
    }
    Ok(paths)
}

/// The arguments and the inputs of a thunk.
#[derive(Drop)]
struct Parts {
    args: Many<Bytes>,
    inputs: Many<(Path, Ref)>,
}

impl Parts {
    /// Takes a word in: an input is its path, `=` and what it is; every other word is an argument.
    fn add(&mut self, alloc: Global, glossary: &Glossary, word: &str) -> Result<()> {
        match word.split_once('=') {
            Some((place, word)) => {
                let reference = Wanted::read(glossary, word)?.reference();
                self.inputs.push((path(alloc, place)?, reference))?;
            }
            None => self.args.push(bytes_of(alloc, word)?)?,
        }
        Ok(())
    }
}

/// The thunk with these parts.
fn thunk(alloc: Global, function: Ref, parts: Parts, outputs: Many<Path>) -> Result<Thunk> {
    let Parts { args, inputs } = parts;
    let envs = Many::new(alloc);
    match Thunk::make(alloc, function, args, envs, inputs, outputs) {
        Ok(thunk) => Ok(thunk),
        Err(MakeFault::NotThunk) => bail!("no thunk has these parts"),
        Err(MakeFault::Memory) => bail!("out of memory"),
    }
}

/// The text of a thunk: the words say its function, its arguments and inputs and, behind `>`, its outputs.
pub fn thunk_text(alloc: Global, glossary: &Glossary, words: &str) -> Result<Bytes> {
    let (words, outputs) = words.split_once(" > ").context("no outputs")?;
    let mut words = words.split(' ');
    let function = words.next().context("no function")?;
    let function = Wanted::read(glossary, function)?.reference();
    let mut parts = Parts {
        args: Many::new(alloc),
        inputs: Many::new(alloc),
    };
    'words: for word in words {
        parts.add(alloc, glossary, word)?;
    }
    let thunk = thunk(alloc, function, parts, paths(alloc, outputs)?)?;
    Ok(encode(alloc, &thunk)?)
}
