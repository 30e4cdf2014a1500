//! What lies under the lock.

ghost use Rattle.std.specs.Prelude.{◌≡◌, ◌≤◌, ◌<◌, ◌+◌, [], true, Some, IfOk, IfSome, IfNone, OnErr};
ghost use Rattle.std.specs.Arc.{arc_value};
ghost use Rattle.job_wire.specs.Frame.{IsJob};
ghost use Rattle.force_core.specs.Book.{IsBook, IsOutcome, answer_at};
ghost use Rattle.force_pool.specs.Counting.{starts_of, firsts_of, losses_of};
ghost use Rattle.force_pool.specs.Entering.{DiffersUnlessTold, IsLeaseOf, TellsApart};
ghost use Rattle.force_pool.specs.Quiet.{IsQuiet};
ghost use Rattle.force_pool.specs.Report.{HasOpenJob};
ghost use Rattle.force_pool.specs.Concluding.{IsClosing};

use crate::entered::Entered;
use crate::limits::Limits;
use crate::place::Place;
use crate::settled::{Settled, settle};
use force_core::{Book, Event, Need, Offer, Reply, Start};
use job_wire::{Answer, Sealed};
use need_eval::Prepared;
use object_name::{Bytes, Many, TryCopy};
use std::alloc::{AllocError, Global};
use std::sync::ledger;
use std::sync::ledger::{Ledger, Share};
use thunk_codec::{Function, Job, Outcome};

/// A history that was handed out, and whether some job of it has no outcome.
#[derive(Drop)]
pub(crate) struct Closing {
    pub(crate) history: Many<Event>,
    pub(crate) has_open: bool,
}

/// The book of a call, with ledgers that count what the workers enter, and the marks on the workers. The totals of the ledgers are
/// the numbers of the history, and the book has the limits of the call.
#[derive(Drop)]
pub(crate) struct Desk<F: Function, S: Limits, P: Ledger, O: Ledger> {
    book: Book<F>,
    starts: ledger::Book<S>,
    replies: ledger::Book<P>,
    losses: ledger::Book<O>,
    /// Which workers are the caller's.
    marks: Vec<bool>,
    /// How many workers in threads haven't ended.
    going: usize,
    /// How many first outcomes were entered.
    firsts: u64,
    ghost starts_are: { starts.total ≡ starts_of book.history },
    ghost replies_are: { replies.total ≡ firsts_of book.history },
    ghost losses_are: { losses.total ≡ losses_of book.history },
    ghost workers_are: { book.workers ≡ S.workers },
    ghost retries_are: { book.retries ≡ S.retries },
    ghost copies_are: { book.copies ≡ S.copies },
}

impl<F: Function, S: Limits, P: Ledger, O: Ledger> Desk<F, S, P, O> {
    /// A desk with an empty book.
    pub(crate) fn new(
        book: Book<F>,
        starts: ledger::Book<S>,
        replies: ledger::Book<P>,
        losses: ledger::Book<O>,
        marks: Vec<bool>,
        going: usize,
    ) -> Desk<F, S, P, O>
        requires history { book.history ≡ [] }
        requires totals { (starts.total ≡ 0) × (replies.total ≡ 0) × (losses.total ≡ 0) }
        requires limits { (book.workers ≡ S.workers) × (book.retries ≡ S.retries) × (book.copies ≡ S.copies) }
    {
        Desk {
            book,
            starts,
            replies,
            losses,
            marks,
            going,
            firsts: 0,
        }
    }

    /// Gives a worker the next lease, and counts it among the worker's starts.
    pub(crate) fn start(
        &mut self,
        worker: u32,
        mine: &mut Share<S>,
    ) -> Result<Option<Start>, AllocError>
        requires { 0 < mine.old.parts }
        ensures some { IfOk result (λ found. IfSome found (λ _. mine.new.amount ≡ mine.old.amount + 1)) }
        ensures is_job { IfOk result (λ found. IfSome found (λ start. IsJob (arc_value start.job))) }
        ensures none { IfOk result (λ found. IfNone found (mine.new.amount ≡ mine.old.amount)) }
        ensures err { OnErr result (mine.new.amount ≡ mine.old.amount) }
        ensures parts { mine.new.parts ≡ mine.old.parts }
    {
        let Desk { book, starts, .. } = self;
        match book.start(worker)? {
            Some(start) => {
                starts.add(mine, 1);
                Ok(Some(start))
            }
            None => Ok(None),
        }
    }

    /// Enters an outcome of a job that came on a lease, where the lease is of that job, and counts it among the worker's first
    /// outcomes where it is one. Where it differs from the first, no more leases are started.
    pub(crate) fn reply(
        &mut self,
        alloc: Global,
        lease: u64,
        job: &Job,
        sealed: Sealed,
        mine: &mut Share<P>,
    ) -> Entered
        requires outcome { IsOutcome F.tells F.outcome job.now sealed }
        requires part { 0 < mine.old.parts }
        ensures differs { DiffersUnlessTold (F.tells job.now) result }
        ensures parts { mine.new.parts ≡ mine.old.parts }
        ensures amount { mine.old.amount ≤ mine.new.amount }
    {
        let Desk {
            book,
            replies,
            firsts,
            ..
        } = self;
        let Some(id) = id_of_job(book, lease, job) else {
            return Entered::Done;
        };
        match book.reply(lease, sealed) {
            Reply::First => {
                replies.add(mine, 1);
                *firsts = firsts.wrapping_add(1);
                Entered::Done
            }
            Reply::Again => Entered::Done,
            Reply::Stray => Entered::Done,
            Reply::Differs { second } => {
                book.close();
                told_apart(alloc, book, id, second)
            }
        }
    }

    /// Enters a loss, where there is one to enter, and counts it among the worker's losses.
    pub(crate) fn lose(&mut self, lease: u64, mine: &mut Share<O>)
        requires { 0 < mine.old.parts }
        ensures amount { (mine.old.amount ≤ mine.new.amount) × (mine.new.amount ≤ mine.old.amount + 1) }
        ensures parts { mine.new.parts ≡ mine.old.parts }
    {
        let Desk { book, losses, .. } = self;
        if book.may_lose(lease) {
            book.lost(lease);
            losses.add(mine, 1);
        }
    }

    /// Ends all work: no more leases are started.
    pub(crate) fn close(&mut self) {
        self.book.close();
    }

    /// Whether no more leases are started.
    pub(crate) fn is_closed(&self) -> bool {
        self.book.is_closed()
    }

    /// Marks a worker that got no thread as the caller's.
    pub(crate) fn mark(&mut self, worker: u32) {
        self.going = self.going.saturating_sub(1);
        if let Some(mark) = self.marks.get_mut(worker as usize) {
            *mark = true;
        }
    }

    /// Whether a worker is the caller's.
    pub(crate) fn is_marked(&self, worker: u32) -> bool {
        match self.marks.get(worker as usize) {
            Some(mark) => *mark,
            None => true,
        }
    }

    /// A worker in a thread has ended.
    pub(crate) fn leave(&mut self) {
        self.going = self.going.saturating_sub(1);
    }

    /// Whether all workers in threads have ended.
    pub(crate) fn is_left(&self) -> bool {
        self.going == 0
    }

    /// Offers a job that is wanted now.
    pub(crate) fn offer(&mut self, alloc: Global, prepared: &Prepared) -> Result<(), AllocError> {
        let Desk { book, .. } = self;
        offer_now(alloc, book, prepared)
    }

    /// Offers jobs ahead.
    pub(crate) fn settle(
        &mut self,
        alloc: Global,
        ready: Many<Prepared>,
    ) -> Result<Settled, AllocError> {
        let Desk { book, .. } = self;
        settle_quietly(alloc, book, ready)
    }

    /// The outcome of a job, where it is there.
    pub(crate) fn take(&mut self, prepared: &Prepared) -> Option<Outcome>
        ensures { IfSome result (λ outcome. IsOutcome F.tells F.outcome prepared.now.job outcome) }
    {
        let Desk { book, .. } = self;
        match book.find(prepared) {
            Some(id) => book.take(id),
            None => None,
        }
    }

    /// How many first outcomes were entered.
    pub(crate) fn firsts(&self) -> u64 {
        self.firsts
    }

    /// The answer of a job, where it has one.
    pub(crate) fn answer(&self, alloc: Global, id: u64) -> Result<Option<Answer>, AllocError> {
        match self.book.answer_of(id) {
            Some(answer) => Ok(Some(answer.copy(alloc)?)),
            None => Ok(None),
        }
    }

    /// The bytes at a place, where they are there and weren't taken.
    pub(crate) fn output(&self, alloc: Global, place: Place) -> Result<Option<Bytes>, AllocError> {
        let Some(Outcome::Done(outputs)) = self.book.outcome_of(place.id) else {
            return Ok(None);
        };
        match outputs.as_slice().get(place.index) {
            Some(bytes) => Ok(Some(bytes.copy(alloc)?)),
            None => Ok(None),
        }
    }

    /// Hands the history out. All shares together have its numbers.
    pub(crate) fn finish(
        self,
        all_starts: &mut Share<S>,
        all_replies: &mut Share<P>,
        all_losses: &mut Share<O>,
    ) -> Closing
        requires { (all_starts.old.parts ≡ S.parts) × (all_replies.old.parts ≡ P.parts) × (all_losses.old.parts ≡ O.parts) }
        ensures closing { IsClosing S.workers S.retries S.copies result.history result.has_open }
        ensures starts { all_starts.old.amount ≡ starts_of result.history }
        ensures replies { all_replies.old.amount ≡ firsts_of result.history }
        ensures losses { all_losses.old.amount ≡ losses_of result.history }
    {
        let Desk {
            book,
            mut starts,
            mut replies,
            mut losses,
            marks: _,
            going: _,
            firsts: _,
        } = self;
        starts.audit(all_starts);
        replies.audit(all_replies);
        losses.audit(all_losses);
        let has_open = has_open(&book);
        Closing {
            history: book.into_history(),
            has_open,
        }
    }
}

/// Offers a job.
fn offer_quietly<F: Function>(
    alloc: Global,
    book: &mut Book<F>,
    prepared: Prepared,
    need: Need,
) -> Result<Offer, AllocError>
    ensures { IsQuiet book.old book.new }
{
    book.offer(alloc, prepared, need)
}

/// Offers a job that is wanted now, where it isn't known.
fn offer_now<F: Function>(
    alloc: Global,
    book: &mut Book<F>,
    prepared: &Prepared,
) -> Result<(), AllocError>
    ensures { IsQuiet book.old book.new }
{
    if book.find(prepared).is_some() {
        return Ok(());
    }
    let copy = prepared.copy(alloc)?;
    offer_quietly(alloc, book, copy, Need::Now)?;
    Ok(())
}

/// Offers jobs ahead.
fn settle_quietly<F: Function>(
    alloc: Global,
    book: &mut Book<F>,
    ready: Many<Prepared>,
) -> Result<Settled, AllocError>
    ensures { IsQuiet book.old book.new }
{
    settle(alloc, book, ready)
}

/// Whether two jobs are equal.
fn is_equal(found: &Job, job: &Job) -> bool
    ensures { result ≡ true → found.now ≡ job.now }
{
    found.is_same(job)
}

/// The number of a lease's job, where it is this one.
fn id_of_job<F: Function>(book: &Book<F>, lease: u64, job: &Job) -> Option<u64>
    ensures { IfSome result (λ id. IsLeaseOf book.now lease id job.now) }
{
    let id = book.id_of(lease)?;
    let found = book.job_of(id)?;
    if is_equal(found, job) { Some(id) } else { None }
}

/// The first answer of a job, and another.
fn told_apart<F: Function>(alloc: Global, book: &Book<F>, id: u64, second: Answer) -> Entered
    ensures { TellsApart (answer_at book.now.tasks id) second result }
{
    let Some(resolved) = book.resolved_of(id) else {
        return Entered::Memory;
    };
    let Some(first) = book.answer_of(id) else {
        return Entered::Memory;
    };
    let Ok(first) = first.copy(alloc) else {
        return Entered::Memory;
    };
    Entered::Differs {
        resolved,
        first,
        second,
    }
}

/// Whether a job has no outcome. None where there is no such job.
fn is_open<F: Function>(book: &Book<F>, id: u64) -> Option<bool>
    requires { IsBook book.now }
    ensures { result ≡ Some true → HasOpenJob book.now.state }
{
    let _job = book.job_of(id)?;
    Some(book.answer_of(id).is_none())
}

/// Whether some job has no outcome.
fn has_open<F: Function>(book: &Book<F>) -> bool
    requires { IsBook book.now }
    ensures { result ≡ true → HasOpenJob book.now.state }
{
    'jobs: for id in 0..u64::MAX {
        match is_open(book, id) {
            None => return false,
            Some(true) => return true,
            Some(false) => {}
        }
    }
    false
}
