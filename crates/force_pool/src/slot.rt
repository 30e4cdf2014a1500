//! A worker's place: its thread, or the worker itself where no thread could be had.

ghost use Rattle.std.specs.Prelude.{◌≡◌};
ghost use Rattle.force_pool.specs.Account.{Goes};

use crate::hall::Hall;
use crate::limits::Limits;
use crate::worker::{Worker, work};
use std::alloc::Global;
use std::marker::Model;
use std::snapshot::Snapshot;
use std::sync::Wait;
use std::sync::ledger::{Ledger, Share};
use std::thread::{Promise, PromisedHandle, Scope, Threads};
use worker_link::Link;

/// What a worker promises: what it gives back fits the link that it was given.
#[derive(Drop)]
pub(crate) struct Promised<L> {
    given: Snapshot<L>,
    retries: u32,
}

impl<L: Link, S: Limits, P: Ledger, O: Ledger> Promise<Worker<L, S, P, O>> for Promised<L> {
    ghost use Rattle.force_pool.specs.Account.{Gives};

    ghost kept_by = { λ p w. Gives L.tells p.retries (L.jobs p.given.value) (L.faults p.given.value) w };
}

/// The place of a worker. Contracts see how its link was when it was given.
#[derive(Drop)]
pub(crate) struct Slot<L: Link, S: Limits, P: Ledger, O: Ledger> {
    given: Snapshot<L>,
    thread: Result<PromisedHandle<Worker<L, S, P, O>, Promised<L>>, Worker<L, S, P, O>>,
}

impl<L: Link, S: Limits, P: Ledger, O: Ledger> Model for Slot<L, S, P, O> {
    ghost use Rattle.std.specs.Prelude.{◌≡◌, IfOk, IfErr};
    ghost use Rattle.force_pool.specs.Account.{Gives};
    ghost use Rattle.force_pool.specs.Links.{Mark};

    ghost Value = { Mark };

    ghost view = { λ s. record { sent = L.jobs s.given.value; faults = L.faults s.given.value } };

    ghost invariant = { λ s. IfOk s.thread (λ h. (h.promise.given.value ≡ s.given.value) × (h.promise.retries ≡ S.retries))
        × IfErr s.thread (λ w. Gives L.tells S.retries (L.jobs s.given.value) (L.faults s.given.value) w) };
}

impl<L: Link, S: Limits, P: Ledger, O: Ledger> Slot<L, S, P, O> {
    ghost use Rattle.std.specs.Prelude.{◌≡◌};
    ghost use Rattle.force_pool.specs.Account.{Gives};

    /// Takes one step of a worker that is the caller's. False where it isn't, or where there is no lease.
    pub(crate) fn step_here<R: Wait>(
        &mut self,
        rt: &R,
        alloc: Global,
        hall: &Hall<L, S, P, O>,
    ) -> bool
        ensures { self.new ≡ self.old }
    {
        match &mut self.thread {
            Ok(_) => false,
            Err(worker) => {
                if !worker.is_going() {
                    return false;
                }
                worker.step(rt, alloc, hall)
            }
        }
    }

    /// Whether the worker is the caller's, and can go on.
    pub(crate) fn is_here(&self) -> bool {
        match &self.thread {
            Ok(_) => false,
            Err(worker) => worker.is_going(),
        }
    }

    /// Waits for the worker to end.
    pub(crate) fn end<R: Threads>(self, rt: &R, alloc: Global) -> Worker<L, S, P, O>
        ensures { Gives L.tells S.retries self.sent self.faults result }
    {
        let Slot { given: _, thread } = self;
        match thread {
            Ok(handle) => handle.join(rt),
            Err(worker) => {
                let mut worker = worker;
                worker.finish(alloc);
                worker
            }
        }
    }
}

/// Starts a worker in a thread. Where no thread can be had, the worker is the caller's.
#[tactic(auto, using(crate::proofs::WorkerSums::gives_fresh))]
pub(crate) fn start_one<'s, E, R, L, S, P, O>(
    scope: &Scope<'s, E>,
    rt: &'s R,
    alloc: Global,
    hall: &'s Hall<L, S, P, O>,
    number: u32,
    retries: u32,
    link: L,
    starts: Share<S>,
    replies: Share<P>,
    losses: Share<O>,
) -> Slot<L, S, P, O>
where
    R: Threads + Wait + Sync,
    L: Link + Drop + Send + 's,
    S: Limits + Send + Sync + 's,
    P: Ledger + Send + Sync + 's,
    O: Ledger + Send + Sync + 's,
    requires retries { retries ≡ S.retries }
    requires parts { (starts.parts ≡ 1) × (replies.parts ≡ 1) × (losses.parts ≡ 1) }
    requires amounts { (starts.amount ≡ 0) × (replies.amount ≡ 0) × (losses.amount ≡ 0) }
    ensures { result ≡ record { sent = L.jobs link; faults = L.faults link } }
{
    let given = Snapshot::of(&link);
    let promised = Promised {
        given: Snapshot::of(&link),
        retries,
    };
    let worker = Worker::new(number, retries, link, starts, replies, losses);
    match scope.spawn_with(
        promised,
        move || -> Worker<L, S, P, O>
            ensures { Goes L.tells worker result }
        { work(rt, alloc, hall, worker) },
    ) {
        Ok(handle) => Slot {
            given,
            thread: Ok(handle),
        },
        Err(refused) => {
            hall.desk.lock(rt).mark(number);
            let worker = (refused.value)();
            Slot {
                given,
                thread: Err(worker),
            }
        }
    }
}
