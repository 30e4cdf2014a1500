//! Calls that are made on a book.

ghost use Rattle.std.specs.Prelude.{◌≤◌, ◌≡◌, IfOk};
ghost use Rattle.thunk_codec.specs.declared.job.Outcome.TheVariants.{Failed};

use crate::answered::Answered;
use crate::call::Call;
use crate::sizes::Sizes;
use crate::untold::Untold;
use crate::words::prepared;
use anyhow::{Context, Result, bail};
use force_core::{Book, Event, Need, Offer, Reply};
use job_wire::{Answer, Sealed, seal};
use std::alloc::{AllocError, Global};
use thunk_codec::Outcome;

/// Why a word is refused.
const NO_JOB: &str = "a word has at most 64 bytes";

/// A book of which nothing is told.
#[derive(Drop)]
pub struct Played {
    alloc: Global,
    pub book: Book<Untold>,
}

/// An outcome with a status.
fn failed(alloc: Global, status: u8) -> Result<Sealed, AllocError>
    ensures { IfOk result (λ sealed. sealed ≡ Failed status) }
{
    seal(alloc, Outcome::Failed(status))
}

/// Enters that the job of a lease failed.
fn reply(book: &mut Book<Untold>, lease: u64, status: u8, sealed: Sealed) -> Reply
    requires status { (1 ≤ status) × (status ≤ 204) }
    requires sealed { sealed ≡ Failed status }
{
    book.reply(lease, sealed)
}

/// Enters a loss, where there may be one.
fn lose(book: &mut Book<Untold>, lease: u64) -> Answered {
    if !book.may_lose(lease) {
        return Answered::MayNot;
    }
    book.lost(lease);
    Answered::Lost
}

/// What an answer of a job says.
fn said(answer: &Answer) -> Answered {
    match answer {
        Answer::Done(_) => Answered::Done,
        Answer::Failed(status) => Answered::Failed(*status),
    }
}

/// What an outcome says.
fn outcome(outcome: &Outcome) -> Answered {
    match outcome {
        Outcome::Done(_) => Answered::Done,
        Outcome::Failed(status) => Answered::Failed(*status),
    }
}

impl Played {
    /// A new book.
    pub fn new(alloc: Global, sizes: Sizes) -> Result<Played> {
        let book = Book::new(alloc, sizes.workers, sizes.retries, sizes.copies)?;
        Ok(Played { alloc, book })
    }

    fn offer(&mut self, word: &str, need: Need) -> Result<Answered> {
        let prepared = prepared(self.alloc, word)?.context(NO_JOB)?;
        match self.book.offer(self.alloc, prepared, need)? {
            Offer::Offered(id) => Ok(Answered::Offered(id)),
            Offer::Known(id) => Ok(Answered::Known(id)),
            Offer::Full(_) => Ok(Answered::Full),
        }
    }

    fn start(&mut self, worker: u32) -> Result<Answered> {
        match self.book.start(worker)? {
            Some(start) => Ok(Answered::Lease {
                lease: start.lease,
                id: start.id,
            }),
            None => Ok(Answered::Nothing),
        }
    }

    fn reply(&mut self, lease: u64, status: u8) -> Result<Answered> {
        if status < 1 || status > 204 {
            bail!("no job fails with status {status}");
        }
        let sealed = failed(self.alloc, status)?;
        match reply(&mut self.book, lease, status, sealed) {
            Reply::First => Ok(Answered::First),
            Reply::Again => Ok(Answered::Again),
            Reply::Differs { second: _ } => Ok(Answered::Differs),
            Reply::Stray => Ok(Answered::Stray),
        }
    }

    fn close(&mut self) -> Answered {
        self.book.close();
        Answered::Closed
    }

    fn take(&mut self, id: u64) -> Answered {
        match self.book.take(id) {
            Some(taken) => outcome(&taken),
            None => Answered::Nothing,
        }
    }

    /// Makes a call.
    pub fn answer(&mut self, call: &Call<'_>) -> Result<Answered> {
        match call {
            Call::Offer { word, need } => self.offer(word, *need),
            Call::Start { worker } => self.start(*worker),
            Call::Reply { lease, status } => self.reply(*lease, *status),
            Call::Lose { lease } => Ok(lose(&mut self.book, *lease)),
            Call::Close => Ok(self.close()),
            Call::Take { id } => Ok(self.take(*id)),
            Call::Answer { id } => Ok(self.answer_of(*id)),
            Call::Find { word } => self.find(word),
            Call::Agains => Ok(Answered::Number(self.book.agains())),
        }
    }

    /// The last event.
    pub fn last(&self) -> Option<Event> {
        self.book.history().last().copied()
    }

    /// The number under which the job of a word is known.
    pub fn find(&self, word: &str) -> Result<Answered> {
        let prepared = prepared(self.alloc, word)?.context(NO_JOB)?;
        match self.book.find(&prepared) {
            Some(id) => Ok(Answered::Number(id)),
            None => Ok(Answered::Nothing),
        }
    }

    /// The answer of a job.
    pub fn answer_of(&self, id: u64) -> Answered {
        match self.book.answer_of(id) {
            Some(answer) => said(answer),
            None => Answered::Nothing,
        }
    }

    /// The outcome of a job, until it is taken.
    pub fn outcome_of(&self, id: u64) -> Answered {
        match self.book.outcome_of(id) {
            Some(shown) => outcome(shown),
            None => Answered::Nothing,
        }
    }
}
