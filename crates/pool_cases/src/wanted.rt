//! What is wanted.

ghost use Rattle.std.specs.Prelude.{IfOk};
ghost use Rattle.std.specs.List.{AllByRecursion};
ghost use Rattle.thunk_codec.specs.Reference.{IsRef};

use crate::glossary::Glossary;
use anyhow::{Context, Result};
use object_name::{Kind, Many, Name, SPELLING_LEN};
use std::alloc::{AllocFailed, Global};
use thunk_codec::Ref;

/// An object that is wanted: the value of this name, or an output of the thunk of this name.
#[derive(Clone, Copy)]
pub struct Wanted {
    name: Name,
    output: u32,
}

impl Wanted {
    /// What a word wants: a value or the first output of a thunk by its short name, another output with `#` and its number.
    pub fn read(glossary: &Glossary, word: &str) -> Result<Wanted> {
        let (short, output) = match word.split_once('#') {
            Some((short, number)) => (short, number.parse::<u32>().ok().context("no output")?),
            None => (word, 0),
        };
        let name = glossary.find(short)?.name;
        Ok(Wanted { name, output })
    }

    /// The reference to it.
    pub fn reference(&self) -> Ref
        ensures { IsRef result }
    {
        reference(self.name, self.output)
    }
}

/// The reference to a value, or to an output of a thunk.
fn reference(name: Name, output: u32) -> Ref
    ensures { IsRef result }
{
    name.spell(&mut [0; SPELLING_LEN]);
    match name.kind() {
        Kind::Thunk => Ref::Out(name, output),
        Kind::Value => Ref::Value(name),
    }
}

/// What some words want.
pub fn read_all(alloc: Global, glossary: &Glossary, words: &str) -> Result<Vec<Wanted>> {
    let mut all = Vec::new(alloc);
    'words: for word in words.split(' ') {
        all.push(Wanted::read(glossary, word)?)?;
    }
    Ok(all)
}

/// The references to what is wanted.
pub fn refs(alloc: Global, wanted: &[Wanted]) -> Result<Many<Ref>, AllocFailed<Ref>>
    ensures { IfOk result (λ refs. AllByRecursion IsRef refs) }
{
    let mut refs = Many::new(alloc);
    'wanted: for one in wanted {
        refs.push(one.reference())?;
    }
    Ok(refs)
}
