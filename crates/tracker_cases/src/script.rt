//! Cases, line by line.

use crate::beside::Beside;
use crate::call::{Answered, Call};
use crate::chain::follow;
use crate::glossary::Glossary;
use crate::made_up::compare;
use anyhow::{Context, Result, bail};
use std::alloc::Global;

/// A case.
#[derive(Drop)]
pub struct Script {
    alloc: Global,
    glossary: Glossary,
    beside: Option<Beside>,
}

/// A number.
fn number(word: &str) -> Result<u64> {
    word.parse::<u64>().ok().context("no number")
}

/// A number that is not great.
fn small(word: &str) -> Result<u32> {
    word.parse::<u32>().ok().context("no number")
}

/// A thunk and what stands behind `=`.
fn sides(rest: &str) -> Result<(&str, &str)> {
    let (thunk, rest) = rest.split_once(" =").context("no =")?;
    Ok((thunk, rest.strip_prefix(' ').unwrap_or(rest)))
}

/// What is unknown and ready, where a tracker and a plain program don't differ.
fn listed(alloc: Global, glossary: &Glossary, beside: &Beside) -> Result<String> {
    beside.compare(glossary)?;
    let unknown = glossary.spelled(beside.unknown())?;
    let ready = glossary.spelled(beside.ready())?;
    Ok(format!(in alloc; "unknown {unknown}, ready {ready}")?)
}

impl Script {
    pub fn new(alloc: Global) -> Script {
        Script {
            alloc,
            glossary: Glossary::new(alloc),
            beside: None,
        }
    }

    /// Does what a line says, and gives what is printed of it.
    pub fn say(&mut self, text: &str) -> Result<Option<String>> {
        if text.is_empty() || text.starts_with('#') {
            return Ok(None);
        }
        let (word, rest) = text.split_once(' ').unwrap_or((text, ""));
        let said = match word {
            "case" => self.begin(rest)?,
            "roots" => self.roots(rest)?,
            "add" => self.add(rest)?,
            "absorb" => self.absorb(rest)?,
            "bar" => self.bar(rest)?,
            "chain" => follow(self.alloc, small(rest)?)?,
            "random" => self.random(rest)?,
            _ => bail!("{word} begins no line"),
        };
        Ok(Some(said))
    }

    /// Begins a case.
    fn begin(&mut self, title: &str) -> Result<String> {
        self.glossary = Glossary::new(self.alloc);
        self.beside = None;
        Ok(format!(in self.alloc; "{title}:")?)
    }

    /// Begins with a tracker of what is wanted.
    fn roots(&mut self, words: &str) -> Result<String> {
        let roots = self.glossary.refs(words)?;
        let beside = Beside::new(self.alloc, roots)?;
        let text = listed(self.alloc, &self.glossary, &beside)?;
        self.beside = Some(beside);
        Ok(text)
    }

    /// Adds a thunk.
    fn add(&mut self, rest: &str) -> Result<String> {
        let (thunk, refs) = sides(rest)?;
        let name = self.glossary.thunk(thunk)?;
        let refs = self.glossary.refs(refs)?;
        self.call(Call::Add { name, refs })
    }

    /// Absorbs a thunk.
    fn absorb(&mut self, rest: &str) -> Result<String> {
        let (thunk, outputs) = sides(rest)?;
        let name = self.glossary.thunk(thunk)?;
        let outputs = self.glossary.names(outputs)?;
        self.call(Call::Absorb { name, outputs })
    }

    /// Bars a thunk.
    fn bar(&mut self, rest: &str) -> Result<String> {
        let name = self.glossary.thunk(rest)?;
        self.call(Call::Bar { name })
    }

    /// Makes a call.
    fn call(&mut self, call: Call) -> Result<String> {
        let Some(beside) = &mut self.beside else {
            bail!("no roots");
        };
        let answered = beside.answer(call)?;
        let text = listed(self.alloc, &self.glossary, beside)?;
        if answered == Answered::Done {
            return Ok(text);
        }
        Ok(format!(in self.alloc; "{answered}")?)
    }

    /// Makes up lists of calls.
    fn random(&self, rest: &str) -> Result<String> {
        let (seed, lists) = rest.split_once(' ').context("a seed and a number")?;
        let lists = small(lists)?;
        let calls = compare(self.alloc, number(seed)?, lists)?;
        Ok(format!(in self.alloc; "{lists} lists of {calls} calls in all agree")?)
    }
}
