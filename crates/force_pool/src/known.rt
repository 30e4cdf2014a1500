//! The thunks in reach of what is wanted, as far as they are known ahead of the evaluation.

ghost use Rattle.std.specs.Prelude.{◌≡◌, true, slice_get, IfSome};
ghost use Rattle.dep_tracker.specs.Known.{has_name};
ghost use Rattle.force_pool.specs.Walks.{IsOnlyRead};

use crate::hall::Hall;
use crate::limits::Limits;
use crate::making::{Made, make};
use crate::objects::object;
use crate::offered::Offered;
use crate::outputs::Outputs;
use blob_store::Keeper;
use dep_tracker::{TrackFault, Tracker};
use job_wire::Answer;
use need_eval::Prepared;
use object_name::{Many, Name, TryCopy};
use std::alloc::{AllocError, Global};
use std::collections::HashMap;
use std::sync::Wait;
use std::sync::ledger::Ledger;
use thunk_codec::{DecodeFault, Function, Ref, Thunk, decode};

/// The thunks that are known.
#[derive(Drop)]
pub(crate) struct Known {
    tracker: Tracker,
    /// Those whose jobs weren't made.
    unmade: HashMap<Name, Thunk>,
    outputs: Outputs,
    /// Whether no more thunks are taken on.
    is_full: bool,
    /// How often a failed call of the keeper is tried again.
    retries: u32,
}

/// What comes of a step ahead.
#[derive(Drop)]
pub(crate) enum Step {
    /// The job of this thunk was made.
    Job(Name, Prepared),
    /// No job was made, and there may be more steps.
    Next,
    /// There was no step to take.
    Last,
}

/// The name at a place.
fn name_at(names: &[Name], place: usize) -> Option<Name>
    ensures { result ≡ slice_get names.now place }
{
    names.get(place).copied()
}

/// The name at a place, which is among the names.
fn listed_at(names: &[Name], place: usize) -> Option<Name>
    ensures { IfSome result (λ name. has_name names.now name ≡ true) }
{
    name_at(names, place)
}

/// The first of some names whose thunk's job wasn't made.
fn first_unmade(names: &[Name], unmade: &HashMap<Name, Thunk>) -> Option<Name>
    ensures { IfSome result (λ name. has_name names.now name ≡ true) }
{
    let place = names.iter().position(|name| unmade.contains_key(name))?;
    listed_at(names, place)
}

/// A name, where it is among some.
fn listed(names: &[Name], name: &Name) -> Option<Name>
    ensures { IfSome result (λ found. has_name names.now found ≡ true) }
{
    let place = names.iter().position(|other| *other == *name)?;
    listed_at(names, place)
}

/// The thunk whose text some bytes are. None where they are that of no thunk.
fn thunk_of(alloc: Global, text: &[u8]) -> Result<Option<Thunk>, AllocError> {
    match decode(alloc, text) {
        Ok(thunk) => Ok(Some(thunk)),
        Err(DecodeFault::BadThunk) => Ok(None),
        Err(DecodeFault::Memory) => Err(AllocError),
    }
}

/// The thunk of a name, from the outcomes of the book or else from the keeper. None where it is in neither, or can't be read.
#[tactic(auto, using(crate::proofs::KeepersRead::read_none))]
fn read<R: Wait, K: Keeper, F: Function, S: Limits, P: Ledger, O: Ledger>(
    rt: &R,
    alloc: Global,
    keeper: &mut K,
    hall: &Hall<F, S, P, O>,
    outputs: &Outputs,
    name: &Name,
    retries: u32,
) -> Result<Option<Thunk>, AllocError>
    ensures { IsOnlyRead K.tells K.store K.writes K.faults keeper.old keeper.new }
{
    match object(rt, alloc, keeper, hall, outputs, name, retries)? {
        Some(text) => thunk_of(alloc, text.as_slice()),
        None => Ok(None),
    }
}

impl Known {
    /// Nothing is known but what is wanted.
    pub(crate) fn new(alloc: Global, refs: &Many<Ref>, retries: u32) -> Result<Known, AllocError> {
        let roots = refs.copy(alloc)?;
        Ok(Known {
            tracker: Tracker::new(alloc, roots)?,
            unmade: HashMap::new(alloc),
            outputs: Outputs::new(alloc),
            is_full: false,
            retries,
        })
    }

    /// How many thunks are ready.
    pub(crate) fn ready(&self) -> usize {
        self.tracker.ready().len()
    }

    /// A thunk that is unknown.
    fn next_unknown(&self) -> Option<Name>
        ensures { IfSome result (λ name. has_name self.now.tracker.unknown name ≡ true) }
    {
        if self.is_full {
            return None;
        }
        listed_at(self.tracker.unknown(), 0)
    }

    /// A thunk that is ready, and whose job wasn't made.
    fn next_unmade(&self) -> Option<Name>
        ensures { IfSome result (λ name. has_name self.now.tracker.ready name ≡ true) }
    {
        first_unmade(self.tracker.ready(), &self.unmade)
    }

    /// Takes on a thunk that was read.
    fn add(&mut self, alloc: Global, name: Name, thunk: Thunk) -> Result<(), AllocError>
        requires { has_name self.old.tracker.unknown name ≡ true }
    {
        let copy = thunk.copy(alloc)?;
        match self.tracker.add(alloc, name, thunk) {
            Ok(()) => {
                self.unmade.insert(name, copy)?;
                Ok(())
            }
            Err(TrackFault::Full) => {
                self.is_full = true;
                Ok(())
            }
            Err(TrackFault::Memory) => Err(AllocError),
        }
    }

    /// Reads a thunk that is unknown. False where there is none to read. The keeper is only read.
    #[tactic(auto, using(crate::proofs::KeepersRead::read_none))]
    pub(crate) fn read_next<R: Wait, K: Keeper, F: Function, S: Limits, P: Ledger, O: Ledger>(
        &mut self,
        rt: &R,
        alloc: Global,
        keeper: &mut K,
        hall: &Hall<F, S, P, O>,
    ) -> Result<bool, AllocError>
        ensures { IsOnlyRead K.tells K.store K.writes K.faults keeper.old keeper.new }
    {
        let Some(name) = self.next_unknown() else {
            return Ok(false);
        };
        match read(rt, alloc, keeper, hall, &self.outputs, &name, self.retries)? {
            Some(thunk) => self.add(alloc, name, thunk)?,
            None => self.tracker.bar(name),
        }
        Ok(true)
    }

    /// Takes the outputs of a thunk that is ready.
    fn absorb(&mut self, alloc: Global, name: Name, names: Many<Name>) -> Result<(), AllocError>
        requires { has_name self.old.tracker.ready name ≡ true }
    {
        self.outputs.add(name, names.copy(alloc)?)?;
        self.tracker.absorb(alloc, name, names)
    }

    /// Takes the answer of the job of a thunk.
    pub(crate) fn hear(
        &mut self,
        alloc: Global,
        offered: Offered,
        answer: Answer,
    ) -> Result<(), AllocError> {
        let Some(name) = listed(self.tracker.ready(), &offered.thunk) else {
            return Ok(());
        };
        match answer {
            Answer::Done(names) => {
                self.outputs.place(offered.id, names.as_slice())?;
                self.absorb(alloc, name, names)
            }
            Answer::Failed(_) => {
                self.tracker.bar(name);
                Ok(())
            }
        }
    }

    /// Makes the job of a thunk that is ready. The keeper is only read.
    #[tactic(auto, using(crate::proofs::KeepersRead::read_none))]
    pub(crate) fn make_next<R: Wait, K: Keeper, F: Function, S: Limits, P: Ledger, O: Ledger>(
        &mut self,
        rt: &R,
        alloc: Global,
        keeper: &mut K,
        hall: &Hall<F, S, P, O>,
    ) -> Result<Step, AllocError>
        ensures { IsOnlyRead K.tells K.store K.writes K.faults keeper.old keeper.new }
    {
        let Some(name) = self.next_unmade() else {
            return Ok(Step::Last);
        };
        let Some(thunk) = self.unmade.remove(&name) else {
            return Ok(Step::Last);
        };
        match make(rt, alloc, keeper, hall, &self.outputs, &thunk, self.retries)? {
            Made::Job(prepared) => return Ok(Step::Job(name, prepared)),
            Made::Noted(names) => self.absorb(alloc, name, names)?,
            Made::Nothing => self.tracker.bar(name),
        }
        Ok(Step::Next)
    }
}
