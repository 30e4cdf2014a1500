//! The book that workers and the one who evaluates share.

use crate::entry::{Entry, name_of_text};
use crate::event::Event;
use crate::offer::{Need, Offer};
use crate::reply::Reply;
use crate::tasks::Tasks;
use job_wire::{Answer, Sealed};
use lease_table::Leases;
use need_eval::Prepared;
use object_name::{Many, Name};
use std::alloc::{AllocError, Global};
use std::marker::Model;
use std::sync::Arc;
use thunk_codec::{Function, Job, Outcome};

/// A lease of a job.
#[derive(Drop)]
pub struct Start {
    pub lease: u64,
    pub id: u64,
    pub job: Arc<Job>,
}

/// What was offered and what came of it, with its history.
#[derive(Drop)]
pub struct Book<F: Function> {
    workers: u32,
    retries: u32,
    copies: u32,
    table: Leases,
    closed: bool,
    history: Vec<Event>,
    tasks: Tasks<F>,
    agains: u64,
    /// How many events there may be in all, but for new jobs.
    most: usize,
}

impl<F: Function> Model for Book<F> {
    ghost use Rattle.std.specs.Prelude.{◌≤◌, ◌+◌, vec_len, vec_capacity};
    ghost use Rattle.force_core.specs.Book.{Core, IsBook, room};

    ghost Value = { Core };

    ghost view = { λ b. record { workers = b.workers; retries = b.retries; copies = b.copies; state = record { table = b.table; closed = b.closed }; history = b.history.items; tasks = b.tasks.items; agains = b.agains } };

    ghost invariant = { λ b. IsBook (record { workers = b.workers; retries = b.retries; copies = b.copies; state = record { table = b.table; closed = b.closed }; history = b.history.items; tasks = b.tasks.items; agains = b.agains })
        × (vec_len b.history + room (record { table = b.table; closed = b.closed }) ≤ b.most) × (b.most ≤ vec_capacity b.history) };
}

impl<F: Function> Book<F> {
    ghost use Rattle.std.specs.Prelude.{◌≡◌, ◌≤◌, [], ◌∷◌, ◌++◌, true, false, Some, None, IfOk, IfSome, IfNone, OnOk, OnErr, slice_get, map, length};
    ghost use Rattle.std.specs.Arc.{arc_value};
    ghost use Rattle.object_name.specs.Name.{name_of};
    ghost use Rattle.job_wire.specs.Frame.{IsJob};
    ghost use Rattle.job_wire.specs.Answer.{answer_of};
    ghost use Rattle.force_core.specs.Reply.{Replies, Agrees};
    ghost use Rattle.std.specs.Option.{option_map};
    ghost use Rattle.force_core.specs.History.{start, replay, may};
    ghost use Rattle.force_core.specs.Book.{IsBook, Core, closing, entered, next_for, outcome_at, answer_at, taken, with_tasks, offered, entered_with, IsOutcome};
    ghost use Rattle.force_core.specs.Known.{known, is_refused, Offers, IsKnown};
    ghost use Rattle.lease_table.specs.Table.{alter, job_of};
    ghost use Rattle.force_core.specs.declared.event.Event.TheVariants as events;

    /// A book in which nothing has happened, with room for the losses and the closing.
    pub fn new(
        alloc: Global,
        workers: u32,
        retries: u32,
        copies: u32,
    ) -> Result<Book<F>, AllocError>
        requires workers { (1 ≤ workers) × (workers ≤ 64) }
        requires retries { retries ≤ 16 }
        requires copies { (1 ≤ copies) × (copies ≤ 4) }
        ensures { IfOk result (λ b. b ≡ record { workers = workers; retries = retries; copies = copies; state = start workers retries copies; history = []; tasks = []; agains = 0 }) }
    {
        let losses = workers * (retries + 1);
        let mut history = Vec::new(alloc);
        let most = 2 * losses as usize + 1;
        history.reserve(most)?;
        Ok(Book {
            workers,
            retries,
            copies,
            table: Leases::new(alloc, losses, copies)?,
            closed: false,
            history,
            tasks: Tasks::new(alloc),
            agains: 0,
            most,
        })
    }

    /// Closes it.
    pub fn close(&mut self)
        ensures { self.new ≡ closing self.old.state.closed self.old }
    {
        if self.closed {
            return;
        }
        self.closed = true;
        self.history.push_reserved(Event::Closed);
    }

    pub fn is_closed(&self) -> bool
        ensures { result ≡ self.now.state.closed }
    {
        self.closed
    }

    /// What has happened. The state is what comes of it.
    pub fn history(&self) -> &[Event]
        ensures history { result.now ≡ self.now.history }
        ensures replayed { replay self.now.workers (start self.now.workers self.now.retries self.now.copies) result.now ≡ Some self.now.state }
    {
        self.history.as_slice()
    }

    /// How many equal answers came again.
    pub fn agains(&self) -> u64
        ensures { result ≡ self.now.agains }
    {
        self.agains
    }

    /// Hands the history out.
    pub fn into_history(self) -> Many<Event>
        ensures history { result ≡ self.history }
        ensures replayed { replay self.workers (start self.workers self.retries self.copies) result ≡ Some self.state }
    {
        Many(self.history)
    }

    /// Whether a lease is open, and there is room for a loss.
    pub fn may_lose(&self, lease: u64) -> bool
        ensures { result ≡ may self.now.workers self.now.state (events.Lost lease) }
    {
        self.table.may_lose(lease)
    }

    /// Enters a loss.
    pub fn lost(&mut self, lease: u64)
        requires { may self.old.workers self.old.state (events.Lost lease) ≡ true }
        ensures { self.new ≡ entered self.old (events.Lost lease) }
    {
        self.table.lose(lease);
        self.history.push_reserved(Event::Lost { lease });
    }

    /// Gives a worker the next lease, with its job.
    pub fn start(&mut self, worker: u32) -> Result<Option<Start>, AllocError>
        ensures exact { IfOk result (λ found. option_map (λ s. s.id) found ≡ next_for self.old worker) }
        ensures some { IfOk result (λ found. IfSome found (λ s. self.new ≡ entered self.old (events.Started s.lease s.id worker))) }
        ensures lease { IfOk result (λ found. IfSome found (λ s. s.lease ≡ length self.old.state.table.leases)) }
        ensures job { IfOk result (λ found. IfSome found (λ s. slice_get (map (λ t. t.job) self.old.tasks) s.id ≡ Some (arc_value s.job))) }
        ensures is_job { IfOk result (λ found. IfSome found (λ s. IsJob (arc_value s.job))) }
        ensures none { IfOk result (λ found. IfNone found (self.new ≡ self.old)) }
        ensures err { OnErr result (self.new ≡ self.old) }
    {
        if self.closed {
            return Ok(None);
        }
        if worker >= self.workers {
            return Ok(None);
        }
        let Some(id) = self.table.choose() else {
            return Ok(None);
        };
        let job = Arc::try_clone(self.tasks.job(id))?;
        let lease = self.table.issue(id);
        self.history
            .push_reserved(Event::Started { lease, id, worker });
        Ok(Some(Start { lease, id, job }))
    }

    /// Enters an outcome that came on a lease.
    pub fn reply(&mut self, lease: u64, sealed: Sealed) -> Reply
        requires { IfSome (job_of self.old.state.table lease) (λ id. IfSome (slice_get self.old.tasks id) (λ t. IsOutcome F.tells F.outcome t.job sealed)) }
        ensures answer { Replies self.old self.new lease sealed result }
        ensures agrees { IfSome (job_of self.old.state.table lease) (λ id. IfSome (slice_get self.old.tasks id) (λ t. F.tells t.job → Agrees result)) }
    {
        let Some(id) = self.table.job_of(lease) else {
            return Reply::Stray;
        };
        match self.tasks.reply(id, sealed) {
            Reply::First => {
                self.table.answer(id);
                self.history.push_reserved(Event::First { lease });
                Reply::First
            }
            Reply::Again => {
                self.agains = self.agains.saturating_add(1);
                Reply::Again
            }
            Reply::Differs { second } => Reply::Differs { second },
            Reply::Stray => unreachable!(),
        }
    }

    /// Hands out the first outcome of a job, once.
    pub fn take(&mut self, id: u64) -> Option<Outcome>
        ensures outcome { result ≡ outcome_at self.old.tasks id }
        ensures taken { self.new ≡ with_tasks self.old (alter taken self.old.tasks id) }
        ensures is { IfSome result (λ o. IfSome (slice_get self.old.tasks id) (λ t. IsOutcome F.tells F.outcome t.job o)) }
    {
        self.tasks.take(id)
    }

    /// The answer of a job.
    pub fn answer_of(&self, id: u64) -> Option<&Answer>
        ensures answer { option_map (λ a. a.now) result ≡ answer_at self.now.tasks id }
        ensures told { IfSome result (λ a. IfSome (slice_get self.now.tasks id) (λ t. F.tells t.job → a.now ≡ answer_of (F.outcome t.job))) }
    {
        match self.tasks.get(id) {
            Some(entry) => entry.answer(),
            None => None,
        }
    }

    /// The first outcome of a job, until it is taken.
    pub fn outcome_of(&self, id: u64) -> Option<&Outcome>
        ensures outcome { option_map (λ o. o.now) result ≡ outcome_at self.now.tasks id }
        ensures is { IfSome result (λ o. IfSome (slice_get self.now.tasks id) (λ t. IsOutcome F.tells F.outcome t.job o.now)) }
    {
        match self.tasks.get(id) {
            Some(entry) => entry.outcome(),
            None => None,
        }
    }

    /// The name of the resolved text of a job.
    pub fn resolved_of(&self, id: u64) -> Option<Name>
        ensures { result ≡ option_map (λ t. name_of t.text) (slice_get self.now.tasks id) }
    {
        match self.tasks.get(id) {
            Some(entry) => Some(entry.name()),
            None => None,
        }
    }

    /// The job of a lease.
    pub fn id_of(&self, lease: u64) -> Option<u64>
        ensures { result ≡ job_of self.now.state.table lease }
    {
        self.table.job_of(lease)
    }

    /// A job.
    pub fn job_of(&self, id: u64) -> Option<&Arc<Job>>
        ensures { option_map (λ j. arc_value j.now) result ≡ option_map (λ t. t.job) (slice_get self.now.tasks id) }
    {
        match self.tasks.get(id) {
            Some(entry) => Some(entry.job()),
            None => None,
        }
    }

    /// The number under which a job is known: it was offered under an equal text, and its outcome was not taken.
    pub fn find(&self, prepared: &Prepared) -> Option<u64>
        ensures exact { result ≡ known prepared.now.text prepared.now.job self.now.tasks }
        ensures same { IfSome result (λ id. IsKnown prepared.now.text prepared.now.job self.now.tasks id) }
    {
        self.tasks.find(name_of_text(prepared), prepared)
    }

    /// Enters a job that is new, with room for what may come of it.
    fn add(&mut self, alloc: Global, name: Name, prepared: Prepared) -> Result<u64, AllocError>
        requires name { name ≡ name_of prepared.text }
        requires new { known prepared.text prepared.job self.old.tasks ≡ None }
        ensures ok { IfOk result (λ id. self.new ≡ entered_with self.old (events.Offered id) (self.old.tasks ++ offered prepared.text prepared.job ∷ [])) }
        ensures number { IfOk result (λ id. id ≡ length self.old.tasks) }
        ensures err { OnErr result (self.new ≡ self.old) }
    {
        let entry = Entry::new(alloc, name, prepared)?;
        let Some(most) = self.most.checked_add(self.copies as usize + 2) else {
            return Err(AllocError);
        };
        self.history.reserve(most - self.history.len())?;
        self.tasks.reserve()?;
        let id = self.table.add(alloc)?;
        self.most = most;
        self.tasks.add(entry);
        self.history.push_reserved(Event::Offered(id));
        Ok(id)
    }

    /// Offers a job. One that is wanted now is always taken on.
    pub fn offer(
        &mut self,
        alloc: Global,
        prepared: Prepared,
        need: Need,
    ) -> Result<Offer, AllocError>
        ensures ok { IfOk result (λ offer. Offers self.old self.new prepared need offer) }
        ensures err { OnErr result (self.new ≡ self.old) }
    {
        let name = name_of_text(&prepared);
        if let Some(id) = self.tasks.find(name, &prepared) {
            return Ok(Offer::Known(id));
        }
        if self.tasks.is_refused(&prepared.job, need) {
            return Ok(Offer::Full(prepared));
        }
        let id = self.add(alloc, name, prepared)?;
        Ok(Offer::Offered(id))
    }
}
