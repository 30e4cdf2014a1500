//! Lists of calls that are made up.

ghost use Rattle.std.specs.Prelude.{◌≤◌, ◌<◌};

use crate::beside::Beside;
use crate::call::Call;
use crate::glossary::Glossary;
use anyhow::{Context, Result};
use object_name::Name;
use rand_core::utils::NextWord;
use rand_pcg::Pcg32;
use std::alloc::Global;
use thunk_codec::Ref;

/// The most calls of a list.
const MOST_CALLS: u32 = 64;

/// The stream of the generator.
const STREAM: u64 = 54;

/// What lists are made up of.
#[derive(Drop)]
struct Maker {
    alloc: Global,
    random: Pcg32,
    glossary: Glossary,
    /// How many thunks there are.
    thunks: u32,
}

impl Maker {
    /// A number below a bound.
    fn below(&mut self, bound: u32) -> u32
        requires { 1 ≤ bound }
        ensures { result < bound }
    {
        self.random.next_word() % bound
    }

    fn thunk(&mut self) -> Result<Name> {
        let number = self.below(self.thunks.max(1));
        let word = format!(in self.alloc; "T{number}")?;
        self.glossary.name(word.as_str())
    }

    fn value(&mut self) -> Result<Name> {
        let number = self.below(4);
        let word = format!(in self.alloc; "v{number}")?;
        self.glossary.name(word.as_str())
    }

    /// A reference, mostly to one of the first outputs of a thunk.
    fn reference(&mut self) -> Result<Ref> {
        if self.below(8) == 0 {
            return Ok(Ref::Value(self.value()?));
        }
        let thunk = self.thunk()?;
        Ok(Ref::Out(thunk, self.below(3)))
    }

    fn refs(&mut self) -> Result<Vec<Ref>> {
        let mut refs = Vec::new(self.alloc);
        'refs: for _ in 0..1 + self.below(4) {
            refs.push(self.reference()?)?;
        }
        Ok(refs)
    }

    fn outputs(&mut self) -> Result<Vec<Name>> {
        let mut outputs = Vec::new(self.alloc);
        'outputs: for _ in 0..1 + self.below(3) {
            let name = if self.below(2) == 0 {
                self.thunk()?
            } else {
                self.value()?
            };
            outputs.push(name)?;
        }
        Ok(outputs)
    }

    /// One of some names, if there are any.
    fn choice(&mut self, names: &[Name]) -> Option<Name> {
        let count = u32::try_from(names.len()).ok()?;
        if count == 0 {
            return None;
        }
        names.get(self.below(count) as usize).copied()
    }

    /// A call that may be made, where these thunks are unknown and ready.
    fn call(&mut self, unknown: &[Name], ready: &[Name]) -> Result<Option<Call>> {
        let kind = self.below(16);
        let added = self.choice(unknown);
        let absorbed = self.choice(ready);
        match (added, absorbed) {
            (None, None) => Ok(None),
            (Some(name), None) => self.add_or_bar(name, kind),
            (None, Some(name)) => self.absorb_or_bar(name, kind),
            (Some(added), Some(absorbed)) => {
                if self.below(2) == 0 {
                    self.add_or_bar(added, kind)
                } else {
                    self.absorb_or_bar(absorbed, kind)
                }
            }
        }
    }

    fn add_or_bar(&mut self, name: Name, kind: u32) -> Result<Option<Call>> {
        if kind == 0 {
            return Ok(Some(Call::Bar { name }));
        }
        let refs = self.refs()?;
        Ok(Some(Call::Add { name, refs }))
    }

    fn absorb_or_bar(&mut self, name: Name, kind: u32) -> Result<Option<Call>> {
        if kind == 0 {
            return Ok(Some(Call::Bar { name }));
        }
        let outputs = self.outputs()?;
        Ok(Some(Call::Absorb { name, outputs }))
    }

    /// Makes up a call and makes it on both. False where none may be made.
    fn step(&mut self, beside: &mut Beside) -> Result<bool> {
        let Some(call) = self.call(beside.unknown(), beside.ready())? else {
            return Ok(false);
        };
        beside.answer(call)?;
        beside.compare(&self.glossary)?;
        Ok(true)
    }

    /// Makes up a list and makes its calls, up to one after which the two differ. Gives how many there were.
    fn list(&mut self) -> Result<u32> {
        let mut beside = Beside::new(self.alloc, self.refs()?)?;
        beside.compare(&self.glossary)?;
        'calls: for number in 0..MOST_CALLS {
            if !self.step(&mut beside)? {
                return Ok(number);
            }
        }
        Ok(MOST_CALLS)
    }
}

/// Makes up lists of calls and makes them on a tracker and on a plain program. Gives how many calls there were.
pub fn compare(alloc: Global, seed: u64, lists: u32) -> Result<u64> {
    let mut maker = Maker {
        alloc,
        random: Pcg32::new(seed, STREAM),
        glossary: Glossary::new(alloc),
        thunks: 1,
    };
    let mut calls: u64 = 0;
    'lists: for number in 0..lists {
        maker.thunks = 2 + number % 16;
        let made = maker.list().context(format_args!("list {number}"))?;
        calls = calls.saturating_add(u64::from(made));
    }
    Ok(calls)
}
