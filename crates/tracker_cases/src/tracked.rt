//! A tracker whose calls are looked at before they are made.

ghost use Rattle.std.specs.Prelude.{◌≡◌, true, slice_get, IfSome};
ghost use Rattle.dep_tracker.specs.Known.{has_name};

use crate::call::{Answered, Call};
use crate::recipe::thunk;
use anyhow::{Result, bail};
use dep_tracker::{TrackFault, Tracker};
use object_name::{Many, Name};
use std::alloc::{AllocFailed, Global};
use std::marker::Model;
use thunk_codec::Ref;

/// A tracker.
#[derive(Drop)]
pub struct Tracked {
    alloc: Global,
    tracker: Tracker,
}

// Contracts see nothing of it.
impl Model for Tracked {
    ghost Value = { Unit {0} };

    ghost view = { λ _. tt };
}

/// The name at a place.
fn name_at(names: &[Name], place: usize) -> Option<Name>
    ensures { result ≡ slice_get names.now place }
{
    names.get(place).copied()
}

/// The name at a place, which is among the names.
fn listed_at(names: &[Name], place: usize) -> Option<Name>
    ensures { IfSome result (λ name. has_name names.now name ≡ true) }
{
    name_at(names, place)
}

/// A name, where it is among some.
fn listed(names: &[Name], name: &Name) -> Option<Name>
    ensures { IfSome result (λ found. has_name names.now found ≡ true) }
{
    let place = names.iter().position(|other| *other == *name)?;
    listed_at(names, place)
}

/// A copy of some things, in order.
fn copied<T: Copy + Drop>(alloc: Global, values: &[T]) -> Result<Many<T>, AllocFailed<T>> {
    let mut many = Many::new(alloc);
    'values: for value in values {
        many.push(*value)?;
    }
    Ok(many)
}

impl Tracked {
    /// A tracker of what is wanted.
    pub fn new(alloc: Global, roots: &[Ref]) -> Result<Tracked> {
        let tracker = Tracker::new(alloc, copied(alloc, roots)?)?;
        Ok(Tracked { alloc, tracker })
    }

    pub fn unknown(&self) -> &[Name] {
        self.tracker.unknown()
    }

    pub fn ready(&self) -> &[Name] {
        self.tracker.ready()
    }

    /// Adds a thunk, where it is unknown.
    pub fn add(&mut self, name: &Name, refs: &[Ref]) -> Result<Answered> {
        let thunk = thunk(self.alloc, refs)?;
        let Some(name) = listed(self.tracker.unknown(), name) else {
            return Ok(Answered::NotUnknown);
        };
        match self.tracker.add(self.alloc, name, thunk) {
            Ok(()) => Ok(Answered::Done),
            Err(TrackFault::Full) => Ok(Answered::Full),
            Err(TrackFault::Memory) => bail!("out of memory"),
        }
    }

    /// Takes the outputs of a thunk, where it is ready.
    pub fn absorb(&mut self, name: &Name, outputs: &[Name]) -> Result<Answered> {
        let outputs = copied(self.alloc, outputs)?;
        let Some(name) = listed(self.tracker.ready(), name) else {
            return Ok(Answered::NotReady);
        };
        self.tracker.absorb(self.alloc, name, outputs)?;
        Ok(Answered::Done)
    }

    /// Bars a thunk, where it is unknown or ready.
    pub fn bar(&mut self, name: &Name) -> Answered {
        if let Some(name) = listed(self.tracker.unknown(), name) {
            self.tracker.bar(name);
            return Answered::Done;
        }
        if let Some(name) = listed(self.tracker.ready(), name) {
            self.tracker.bar(name);
            return Answered::Done;
        }
        Answered::Neither
    }

    /// Makes a call, where it may be made.
    pub fn answer(&mut self, call: &Call) -> Result<Answered> {
        match call {
            Call::Add { name, refs } => self.add(name, refs.as_slice()),
            Call::Absorb { name, outputs } => self.absorb(name, outputs.as_slice()),
            Call::Bar { name } => Ok(self.bar(name)),
        }
    }
}
