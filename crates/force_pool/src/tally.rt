//! What came of the workers together.

ghost use Rattle.std.specs.Prelude.{◌≡◌, ◌≤◌, length};
ghost use Rattle.force_pool.specs.Sums.{IsEmpty, Fits, HasParts};

use crate::limits::Limits;
use crate::slot::Slot;
use crate::worker::Worker;
use crate::worker_end::{WorkerEnd, first_why, is_given_up, is_memory};
use std::alloc::Global;
use std::marker::Model;
use std::sync::ledger::{Ledger, Share};
use std::thread::Threads;
use worker_link::Link;

/// What came of some workers. Contracts see a `Sum`.
#[derive(Drop)]
pub(crate) struct Tally<L: Link, S: Limits, P: Ledger, O: Ledger> {
    pub(crate) links: Vec<L>,
    pub(crate) starts: Share<S>,
    pub(crate) replies: Share<P>,
    pub(crate) losses: Share<O>,
    /// Whether memory was refused to one.
    pub(crate) memory: bool,
    /// Whether each gave its link up.
    pub(crate) all_lost: bool,
    /// Why the first ended that says that two answers differ.
    pub(crate) why: WorkerEnd,
    /// For how many links more there is room.
    pub(crate) left: usize,
}

impl<L: Link, S: Limits, P: Ledger, O: Ledger> Model for Tally<L, S, P, O> {
    ghost use Rattle.std.specs.Prelude.{◌≤◌, ◌+◌, vec_len, vec_capacity};
    ghost use Rattle.force_pool.specs.Links.{marks_of};
    ghost use Rattle.force_pool.specs.Sums.{Sum};

    ghost Value = { Sum };

    ghost view = { λ t. record {
      back = marks_of L.jobs L.faults t.links.items;
      starts = t.starts.amount;
      replies = t.replies.amount;
      losses = t.losses.amount;
      memory = t.memory;
      all_lost = t.all_lost;
      why = t.why;
      parts = record { starts = t.starts.parts; replies = t.replies.parts; losses = t.losses.parts };
      left = t.left;
    } };

    ghost invariant = { λ t. vec_len t.links + t.left ≤ vec_capacity t.links };
}

impl<L: Link, S: Limits, P: Ledger, O: Ledger> Tally<L, S, P, O> {
    ghost use Rattle.std.specs.Prelude.{◌≡◌, ◌<◌};
    ghost use Rattle.force_pool.specs.Sums.{taken_in};

    /// Takes a worker's link and its numbers in.
    pub(crate) fn with(self, worker: Worker<L, S, P, O>) -> Tally<L, S, P, O>
        requires { 0 < self.left }
        ensures { result ≡ taken_in self worker }
    {
        let Tally {
            mut links,
            mut starts,
            mut replies,
            mut losses,
            memory,
            all_lost,
            why,
            left,
        } = self;
        let Worker {
            number: _,
            retries: _,
            link,
            is_open: _,
            failures: _,
            starts: its_starts,
            replies: its_replies,
            losses: its_losses,
            end,
        } = worker;
        links.push_reserved(link);
        starts.merge(its_starts);
        replies.merge(its_replies);
        losses.merge(its_losses);
        let memory = memory || is_memory(&end);
        let all_lost = all_lost && is_given_up(&end);
        Tally {
            links,
            starts,
            replies,
            losses,
            memory,
            all_lost,
            why: first_why(why, end),
            left: left - 1,
        }
    }
}

/// Waits for all workers to end.
pub(crate) fn collect<R: Threads, L: Link + Drop, S: Limits, P: Ledger, O: Ledger>(
    rt: &R,
    alloc: Global,
    slots: Vec<Slot<L, S, P, O>>,
    tally: Tally<L, S, P, O>,
) -> Tally<L, S, P, O>
    requires is_empty { IsEmpty tally }
    requires room { length slots.items ≤ tally.left }
    ensures fits { Fits L.tells S.retries slots.items result }
    ensures parts { HasParts tally.parts (length slots.items) result.parts }
{
    let mut tally = tally;
    'slots: for slot in slots {
        let worker = slot.end(rt, alloc);
        tally = tally.with(worker);
    }
    tally
}
