//! A worker over one link.

ghost use Rattle.std.specs.Prelude.{◌≡◌, ◌≤◌, ◌<◌, ◌+◌, true, IfSome, IfNone};
ghost use Rattle.force_pool.specs.Account.{Account, is_going, Goes};

use crate::hall::Hall;
use crate::heard::Heard;
use crate::lease::{lose, run, stop, take_lease};
use crate::limits::Limits;
use crate::worker_end::{WorkerEnd, is_going};
use object_name::Trouble;
use std::alloc::Global;
use std::marker::Model;
use std::sync::Wait;
use std::sync::ledger::{Ledger, Share};
use worker_link::Link;

/// A worker with its link, and its shares of the three ledgers. Contracts see its account.
#[derive(Drop)]
pub(crate) struct Worker<L: Link, S: Ledger, P: Ledger, O: Ledger> {
    pub(crate) number: u32,
    pub(crate) retries: u32,
    pub(crate) link: L,
    /// Whether the link was opened, and hasn't failed since.
    pub(crate) is_open: bool,
    /// How many calls of the link have failed.
    pub(crate) failures: u32,
    pub(crate) starts: Share<S>,
    pub(crate) replies: Share<P>,
    pub(crate) losses: Share<O>,
    pub(crate) end: WorkerEnd,
}

impl<L: Link, S: Ledger, P: Ledger, O: Ledger> Model for Worker<L, S, P, O> {
    ghost use Rattle.std.specs.Prelude.{◌≡◌, true};
    ghost use Rattle.worker_link.specs.declared.phase.Phase.TheVariants.{Idle};
    ghost use Rattle.force_pool.specs.Account.{Account};

    ghost Value = { Account };

    ghost view = { λ w. record { sent = L.jobs w.link; faults = L.faults w.link; retries = w.retries; starts = w.starts.amount; replies = w.replies.amount; losses = w.losses.amount; failures = w.failures; ended = w.end } };

    ghost invariant = { λ w. (w.is_open ≡ true → L.phase w.link ≡ Idle) × (w.starts.parts ≡ 1) × (w.replies.parts ≡ 1) × (w.losses.parts ≡ 1) };
}

impl<L: Link, S: Limits, P: Ledger, O: Ledger> Worker<L, S, P, O> {
    ghost use Rattle.std.specs.Prelude.{◌≡◌, true};
    ghost use Rattle.force_pool.specs.Account.{is_going, Goes};
    ghost use Rattle.force_pool.specs.Sums.{fresh};

    /// A worker that begins.
    pub(crate) fn new(
        number: u32,
        retries: u32,
        link: L,
        starts: Share<S>,
        replies: Share<P>,
        losses: Share<O>,
    ) -> Worker<L, S, P, O>
        requires parts { (starts.parts ≡ 1) × (replies.parts ≡ 1) × (losses.parts ≡ 1) }
        requires amounts { (starts.amount ≡ 0) × (replies.amount ≡ 0) × (losses.amount ≡ 0) }
        ensures { result ≡ fresh (record { sent = L.jobs link; faults = L.faults link }) retries }
    {
        Worker {
            number,
            retries,
            link,
            is_open: false,
            failures: 0,
            starts,
            replies,
            losses,
            end: WorkerEnd::Going,
        }
    }

    /// Whether it can go on.
    pub(crate) fn is_going(&self) -> bool
        ensures { result ≡ is_going self.now.ended }
    {
        is_going(&self.end)
    }

    /// Opens the link.
    fn reopen<R: Wait>(&mut self, rt: &R, alloc: Global, hall: &Hall<L, S, P, O>)
        requires { is_going self.old.ended ≡ true }
        ensures { Goes L.tells self.old self.new }
    {
        self.is_open = false;
        match self.link.reopen(alloc) {
            Ok(()) => {
                self.is_open = true;
            }
            Err(Trouble::Failed) => match one_more(self.failures, self.retries) {
                Some(failures) => self.failures = failures,
                None => self.end = WorkerEnd::GaveUp,
            },
            Err(Trouble::Memory) => {
                self.end = WorkerEnd::Memory;
                stop(rt, hall);
            }
        }
    }

    /// Takes one step: opens the link where it isn't open, else serves a lease. False where there is no lease.
    pub(crate) fn step<R: Wait>(&mut self, rt: &R, alloc: Global, hall: &Hall<L, S, P, O>) -> bool
        requires { is_going self.old.ended ≡ true }
        ensures { Goes L.tells self.old self.new }
    {
        if !self.is_open {
            self.reopen(rt, alloc, hall);
            return true;
        }
        let start = match take_lease(rt, hall, self.number, &mut self.starts) {
            Ok(Some(start)) => start,
            Ok(None) => return false,
            Err(_) => {
                self.end = WorkerEnd::Memory;
                stop(rt, hall);
                return true;
            }
        };
        let heard = run(rt, alloc, hall, &mut self.link, &start, &mut self.replies);
        self.is_open = false;
        match heard {
            Heard::Answered => {
                self.is_open = true;
                true
            }
            Heard::Failed => {
                lose(rt, hall, start.lease, &mut self.losses);
                match one_more(self.failures, self.retries) {
                    Some(failures) => self.failures = failures,
                    None => self.end = WorkerEnd::GaveUp,
                }
                true
            }
            Heard::Differs {
                resolved,
                first,
                second,
            } => {
                self.end = WorkerEnd::Differs {
                    resolved,
                    first,
                    second,
                };
                true
            }
            Heard::Memory => {
                self.end = WorkerEnd::Memory;
                stop(rt, hall);
                true
            }
        }
    }

    /// Serves leases while there are any, or while there may be.
    pub(crate) fn serve<R: Wait>(&mut self, rt: &R, alloc: Global, hall: &Hall<L, S, P, O>)
        ensures { Goes L.tells self.old self.new }
    {
        'leases: for _ in rt.forever() {
            if !self.is_going() {
                return;
            }
            if !self.step(rt, alloc, hall) {
                return;
            }
        }
        unreachable!()
    }

    /// Says on the link that no more will be sent. Whether that fails changes nothing.
    pub(crate) fn finish(&mut self, alloc: Global)
        ensures { Goes L.tells self.old self.new }
    {
        self.is_open = false;
        match self.link.finish(alloc) {
            Ok(()) => {}
            Err(_) => {}
        }
    }
}

/// The number of failed calls with one more, or None where the link is to be given up.
fn one_more(failures: u32, retries: u32) -> Option<u32>
    ensures some { IfSome result (λ more. (more ≡ failures + 1) × (failures < retries)) }
    ensures none { IfNone result (retries ≤ failures) }
{
    if failures < retries {
        Some(failures + 1)
    } else {
        None
    }
}

/// What a worker does in a thread of its own. One that is the caller's only serves the leases that are there.
pub(crate) fn work<R: Wait, L: Link, S: Limits, P: Ledger, O: Ledger>(
    rt: &R,
    alloc: Global,
    hall: &Hall<L, S, P, O>,
    worker: Worker<L, S, P, O>,
) -> Worker<L, S, P, O>
    ensures { Goes L.tells worker result }
{
    let mut worker = worker;
    worker.serve(rt, alloc, hall);
    if hall.desk.lock(rt).is_marked(worker.number) {
        return worker;
    }
    worker.finish(alloc);
    hall.desk.lock(rt).leave();
    hall.moved.notify_all();
    worker
}
