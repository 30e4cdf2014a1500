//! The parts that a command line works over, and their calls.

use object_name::Many;
use std::alloc::{AllocError, Global};

/// What a command line works over.
#[derive(Clone, Copy)]
pub enum Part {
    Store,
    Files,
    Input,
    Output,
}

impl Part {
    /// The part of a word.
    pub fn read(word: &str) -> Option<Part> {
        match word {
            "store" => Some(Part::Store),
            "files" => Some(Part::Files),
            "input" => Some(Part::Input),
            "output" => Some(Part::Output),
            _ => None,
        }
    }

    pub fn word(&self) -> &'static str {
        match self {
            Part::Store => "store",
            Part::Files => "files",
            Part::Input => "input",
            Part::Output => "output",
        }
    }
}

/// The calls of each part that fail, numbered from 1.
#[derive(Drop)]
pub struct Failing {
    pub store: Many<u64>,
    pub files: Many<u64>,
    pub input: Many<u64>,
    pub output: Many<u64>,
}

impl Failing {
    /// None.
    pub fn none(alloc: Global) -> Self {
        Failing {
            store: Many::new(alloc),
            files: Many::new(alloc),
            input: Many::new(alloc),
            output: Many::new(alloc),
        }
    }

    /// Adds a call of a part.
    pub fn add(&mut self, part: Part, call: u64) -> Result<(), AllocError> {
        match part {
            Part::Store => self.store.push(call)?,
            Part::Files => self.files.push(call)?,
            Part::Input => self.input.push(call)?,
            Part::Output => self.output.push(call)?,
        }
        Ok(())
    }
}

/// How many calls of each part were made.
#[derive(Clone, Copy)]
pub struct Counts {
    pub store: u64,
    pub files: u64,
    pub input: u64,
    pub output: u64,
}

impl Counts {
    /// These counts, with so many calls of a part more.
    pub fn with_further(&self, part: Part, calls: u64) -> Self {
        let mut counts = *self;
        match part {
            Part::Store => counts.store = counts.store.saturating_add(calls),
            Part::Files => counts.files = counts.files.saturating_add(calls),
            Part::Input => counts.input = counts.input.saturating_add(calls),
            Part::Output => counts.output = counts.output.saturating_add(calls),
        }
        counts
    }

    pub fn of(&self, part: Part) -> u64 {
        match part {
            Part::Store => self.store,
            Part::Files => self.files,
            Part::Input => self.input,
            Part::Output => self.output,
        }
    }
}
