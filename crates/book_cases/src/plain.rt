//! A plain program for a book: lists of all that happened, walked over anew for each call.

use crate::answered::Answered;
use crate::call::Call;
use crate::sizes::Sizes;
use anyhow::Result;
use force_core::{Event, Need};
use std::alloc::Global;

/// The most jobs that wait ahead.
const MOST_AHEAD: usize = 256;

/// A job that was offered.
#[derive(Drop)]
struct PlainJob {
    word: String,
    /// The status of its first outcome, until that is taken.
    outcome: Option<u8>,
    /// The status of its first outcome.
    answer: Option<u8>,
}

/// A lease that was given out.
#[derive(Clone, Copy)]
struct PlainLease {
    id: usize,
    lost: bool,
}

/// All that happened, in lists.
#[derive(Drop)]
pub struct Plain {
    alloc: Global,
    sizes: Sizes,
    jobs: Vec<PlainJob>,
    leases: Vec<PlainLease>,
    closed: bool,
    agains: u64,
    last: Option<Event>,
}

impl PlainJob {
    fn waits(&self) -> bool {
        self.outcome.is_some() || self.answer.is_none()
    }

    fn is_known(&self, word: &str) -> bool {
        self.waits() && self.word.as_str() == word
    }
}

impl Plain {
    pub fn new(alloc: Global, sizes: Sizes) -> Plain {
        Plain {
            alloc,
            sizes,
            jobs: Vec::new(alloc),
            leases: Vec::new(alloc),
            closed: false,
            agains: 0,
            last: None,
        }
    }

    /// The last event.
    pub fn last(&self) -> Option<Event> {
        self.last
    }

    pub fn is_closed(&self) -> bool {
        self.closed
    }

    /// How many equal answers came again.
    pub fn agains(&self) -> u64 {
        self.agains
    }

    /// What is answered to a call, and what it changes.
    pub fn answer(&mut self, call: &Call<'_>) -> Result<Answered> {
        match call {
            Call::Offer { word, need } => self.offer(word, *need),
            Call::Start { worker } => self.start(*worker),
            Call::Reply { lease, status } => Ok(self.reply(*lease, *status)),
            Call::Lose { lease } => Ok(self.lose(*lease)),
            Call::Close => Ok(self.close()),
            Call::Take { id } => Ok(self.take(*id)),
            Call::Answer { id } => Ok(self.answer_of(*id)),
            Call::Find { word } => Ok(self.find(word)),
            Call::Agains => Ok(Answered::Number(self.agains)),
        }
    }

    /// The first job of a word whose outcome was not taken.
    fn known(&self, word: &str) -> Option<usize> {
        'jobs: for id in 0..self.jobs.len() {
            if self.jobs[id].is_known(word) {
                return Some(id);
            }
        }
        None
    }

    pub fn find(&self, word: &str) -> Answered {
        match self.known(word) {
            Some(id) => Answered::Number(id as u64),
            None => Answered::Nothing,
        }
    }

    /// How many outcomes were not taken.
    fn waiting(&self) -> usize {
        let mut count: usize = 0;
        'jobs: for job in &self.jobs {
            if job.waits() {
                count = count.saturating_add(1);
            }
        }
        count
    }

    fn offer(&mut self, word: &str, need: Need) -> Result<Answered> {
        if let Some(id) = self.known(word) {
            return Ok(Answered::Known(id as u64));
        }
        if matches!(need, Need::Ahead) && self.waiting() >= MOST_AHEAD {
            return Ok(Answered::Full);
        }
        let id = self.jobs.len() as u64;
        let word = String::from_str(self.alloc, word)?;
        self.jobs.push(PlainJob {
            word,
            outcome: None,
            answer: None,
        })?;
        self.last = Some(Event::Offered(id));
        Ok(Answered::Offered(id))
    }

    /// How many leases of a job were not lost.
    fn running(&self, id: usize) -> u32 {
        let mut count: u32 = 0;
        'leases: for lease in &self.leases {
            if lease.id == id && !lease.lost {
                count = count.saturating_add(1);
            }
        }
        count
    }

    /// The latest lease of a job, counted from 1; 0 where there is none.
    fn latest(&self, id: usize) -> usize {
        let mut latest: usize = 0;
        'leases: for number in 0..self.leases.len() {
            if self.leases[number].id == id {
                latest = number + 1;
            }
        }
        latest
    }

    fn is_answered(&self, id: usize) -> bool {
        match self.jobs.get(id) {
            Some(job) => job.answer.is_some(),
            None => true,
        }
    }

    /// The first job without an outcome and without a lease that is out.
    fn idle(&self) -> Option<usize> {
        'jobs: for id in 0..self.jobs.len() {
            if !self.is_answered(id) && self.running(id) == 0 {
                return Some(id);
            }
        }
        None
    }

    /// The job that may have a lease more and whose latest lease is oldest.
    fn oldest(&self) -> Option<usize> {
        let mut best: Option<usize> = None;
        'jobs: for id in 0..self.jobs.len() {
            if self.is_answered(id) || self.running(id) >= self.sizes.copies {
                continue;
            }
            if self.is_older(id, best) {
                best = Some(id);
            }
        }
        best
    }

    /// Whether the latest lease of a job is older than that of the best one so far.
    fn is_older(&self, id: usize, best: Option<usize>) -> bool {
        match best {
            Some(best) => self.latest(id) < self.latest(best),
            None => true,
        }
    }

    fn choice(&self) -> Option<usize> {
        match self.idle() {
            Some(id) => Some(id),
            None => self.oldest(),
        }
    }

    fn start(&mut self, worker: u32) -> Result<Answered> {
        if self.closed || worker >= self.sizes.workers {
            return Ok(Answered::Nothing);
        }
        let Some(id) = self.choice() else {
            return Ok(Answered::Nothing);
        };
        let lease = self.leases.len() as u64;
        self.leases.push(PlainLease { id, lost: false })?;
        let id = id as u64;
        self.last = Some(Event::Started { lease, id, worker });
        Ok(Answered::Lease { lease, id })
    }

    fn reply(&mut self, lease: u64, status: u8) -> Answered {
        let Some(out) = self.leases.get(lease as usize) else {
            return Answered::Stray;
        };
        let Some(job) = self.jobs.get_mut(out.id) else {
            return Answered::Stray;
        };
        let Some(first) = job.answer else {
            job.outcome = Some(status);
            job.answer = Some(status);
            self.last = Some(Event::First { lease });
            return Answered::First;
        };
        if first != status {
            return Answered::Differs;
        }
        self.agains = self.agains.saturating_add(1);
        Answered::Again
    }

    fn losses(&self) -> u32 {
        let mut count: u32 = 0;
        'leases: for lease in &self.leases {
            if lease.lost {
                count = count.saturating_add(1);
            }
        }
        count
    }

    fn may_lose(&self, lease: u64) -> bool {
        let Some(out) = self.leases.get(lease as usize) else {
            return false;
        };
        !out.lost && !self.is_answered(out.id) && self.losses() < most_losses(self.sizes)
    }

    fn lose(&mut self, lease: u64) -> Answered {
        if !self.may_lose(lease) {
            return Answered::MayNot;
        }
        if let Some(out) = self.leases.get_mut(lease as usize) {
            out.lost = true;
            self.last = Some(Event::Lost { lease });
        }
        Answered::Lost
    }

    fn close(&mut self) -> Answered {
        if !self.closed {
            self.closed = true;
            self.last = Some(Event::Closed);
        }
        Answered::Closed
    }

    fn take(&mut self, id: u64) -> Answered {
        match self.jobs.get_mut(id as usize) {
            Some(job) => answered(job.outcome.take()),
            None => Answered::Nothing,
        }
    }

    /// The status of a job's first outcome.
    pub fn answer_of(&self, id: u64) -> Answered {
        match self.jobs.get(id as usize) {
            Some(job) => answered(job.answer),
            None => Answered::Nothing,
        }
    }

    /// The status of a job's first outcome, until it is taken.
    pub fn outcome_of(&self, id: u64) -> Answered {
        match self.jobs.get(id as usize) {
            Some(job) => answered(job.outcome),
            None => Answered::Nothing,
        }
    }
}

/// How many leases may be lost.
fn most_losses(sizes: Sizes) -> u32 {
    sizes.workers * (sizes.retries + 1)
}

fn answered(status: Option<u8>) -> Answered {
    match status {
        Some(status) => Answered::Failed(status),
        None => Answered::Nothing,
    }
}
