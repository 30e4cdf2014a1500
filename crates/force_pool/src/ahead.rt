//! Thunks that can be run ahead of the evaluation.

ghost use Rattle.std.specs.Prelude.{◌≡◌};
ghost use Rattle.force_pool.specs.Walks.{IsOnlyRead};

use crate::hall::Hall;
use crate::known::{Known, Step};
use crate::limits::Limits;
use crate::offered::{Answers, Offered, answers_of};
use crate::run_ahead::RunAhead;
use crate::settled::Settled;
use blob_store::Keeper;
use need_eval::Prepared;
use object_name::{Many, Name};
use std::alloc::{AllocError, Global};
use std::collections::VecDeque;
use std::marker::Model;
use std::mem::replace;
use std::sync::Wait;
use std::sync::ledger::Ledger;
use thunk_codec::{Function, Ref};

/// The most steps that are taken before the jobs that were made are offered.
const MOST_STEPS: u32 = 64;

/// After so many bytes of jobs, they are offered before more are made.
const ENOUGH_BYTES: u64 = 67_108_864;

/// What can be run ahead of the evaluation, and what was offered of it.
#[derive(Drop)]
pub(crate) struct Ahead {
    known: Known,
    /// Jobs that are to be offered.
    jobs: Many<Prepared>,
    /// Their thunks, in order.
    made: VecDeque<Name>,
    /// The bytes of those that were made since the last offer.
    bytes: u64,
    /// Thunks whose jobs were offered, and whose answers weren't there.
    offered: Vec<Offered>,
    /// How many first outcomes the book had when its answers were looked at.
    heard: u64,
    /// Whether jobs were offered since.
    has_offered: bool,
    has_more: bool,
}

// Contracts see nothing of it.
impl Model for Ahead {
    ghost Value = { Unit {0} };

    ghost view = { λ _. tt };
}

impl Ahead {
    /// Nothing is known but what is wanted.
    pub(crate) fn new(alloc: Global, refs: &Many<Ref>, retries: u32) -> Result<Ahead, AllocError> {
        Ok(Ahead {
            known: Known::new(alloc, refs, retries)?,
            jobs: Many::new(alloc),
            made: VecDeque::new(alloc),
            bytes: 0,
            offered: Vec::new(alloc),
            heard: 0,
            has_offered: false,
            has_more: false,
        })
    }

    /// Takes the answers that are there of the jobs that were offered, though nothing of them is written.
    fn hear<R: Wait, F: Function, S: Limits, P: Ledger, O: Ledger>(
        &mut self,
        rt: &R,
        alloc: Global,
        hall: &Hall<F, S, P, O>,
    ) -> Result<(), AllocError> {
        let Answers {
            firsts,
            answered,
            waiting,
        } = answers_of(rt, alloc, hall, self.offered.as_slice())?;
        self.heard = firsts;
        self.has_offered = false;
        self.offered = waiting;
        'answers: for (offered, answer) in answered {
            self.known.hear(alloc, offered, answer)?;
        }
        Ok(())
    }

    /// Whether the jobs of all thunks that are ready were made.
    fn is_all_made(&self) -> bool {
        self.known.ready() <= self.offered.len().saturating_add(self.made.len())
    }

    /// Keeps a job that is to be offered.
    fn keep(&mut self, thunk: Name, prepared: Prepared) -> Result<(), AllocError> {
        self.bytes = self.bytes.saturating_add(prepared.job.size());
        self.made.push_back(thunk)?;
        self.jobs.push(prepared)?;
        Ok(())
    }

    /// Reads a thunk, or else makes a job, unless the book had no room for the last. False where there is nothing to do. The keeper
    /// is only read.
    #[tactic(auto, using(crate::proofs::KeepersRead::read_none, crate::proofs::KeepersRead::read_both))]
    fn step<R: Wait, K: Keeper, F: Function, S: Limits, P: Ledger, O: Ledger>(
        &mut self,
        rt: &R,
        alloc: Global,
        keeper: &mut K,
        hall: &Hall<F, S, P, O>,
        has_left: bool,
    ) -> Result<bool, AllocError>
        ensures { IsOnlyRead K.tells K.store K.writes K.faults keeper.old keeper.new }
    {
        if self.known.read_next(rt, alloc, keeper, hall)? {
            return Ok(true);
        }
        if has_left {
            return Ok(false);
        }
        if self.is_all_made() {
            return Ok(false);
        }
        match self.known.make_next(rt, alloc, keeper, hall)? {
            Step::Job(thunk, prepared) => self.keep(thunk, prepared)?,
            Step::Next => {}
            Step::Last => return Ok(false),
        }
        Ok(true)
    }
}

impl RunAhead for Ahead {
    fn take_jobs(&mut self, alloc: Global) -> Many<Prepared> {
        self.bytes = 0;
        replace(&mut self.jobs, Many::new(alloc))
    }

    fn settled(&mut self, settled: Settled) -> Result<(), AllocError> {
        let (ids, left) = settled.into_parts();
        self.jobs = left;
        'ids: for id in ids.0 {
            if let Some(thunk) = self.made.pop_front() {
                self.offered.push(Offered { thunk, id })?;
                self.has_offered = true;
            }
        }
        Ok(())
    }

    fn is_behind(&self, firsts: u64) -> bool {
        self.has_offered || self.heard != firsts
    }

    fn has_more(&self) -> bool {
        self.has_more
    }

    #[tactic(auto, using(crate::proofs::KeepersRead::read_none))]
    fn come_on<R: Wait, K: Keeper, F: Function, S: Limits, P: Ledger, O: Ledger>(
        &mut self,
        rt: &R,
        alloc: Global,
        keeper: &mut K,
        hall: &Hall<F, S, P, O>,
    ) -> Result<(), AllocError>
        ensures { IsOnlyRead K.tells K.store K.writes K.faults keeper.old keeper.new }
    {
        self.hear(rt, alloc, hall)?;
        let has_left = !self.jobs.is_empty();
        self.has_more = false;
        'steps: for _ in 0..MOST_STEPS {
            if !self.step(rt, alloc, keeper, hall, has_left)? {
                return Ok(());
            }
            if self.bytes >= ENOUGH_BYTES {
                break;
            }
        }
        self.has_more = true;
        Ok(())
    }
}
