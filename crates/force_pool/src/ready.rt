//! Links that are ready for workers.

ghost use Rattle.std.specs.Prelude.{◌≡◌};
ghost use Rattle.force_pool.specs.Sums.{Begins};

use crate::hall::Hall;
use crate::limits::Limits;
use crate::slot::{Slot, start_one};
use crate::tally::Tally;
use crate::worker_end::WorkerEnd;
use std::alloc::Global;
use std::marker::Model;
use std::sync::Wait;
use std::sync::ledger::{Ledger, Share};
use std::thread::{Scope, Threads};
use worker_link::Link;

/// Links, with all that their workers need and room for what comes back. Contracts see how the links are, and the parts.
#[derive(Drop)]
pub(crate) struct Ready<L: Link, S: Limits, P: Ledger, O: Ledger> {
    links: Vec<L>,
    slots: Vec<Slot<L, S, P, O>>,
    back: Vec<L>,
    starts: Share<S>,
    replies: Share<P>,
    losses: Share<O>,
    retries: u32,
}

impl<L: Link, S: Limits, P: Ledger, O: Ledger> Model for Ready<L, S, P, O> {
    ghost use Rattle.std.specs.Prelude.{◌≡◌, ◌≤◌, ◌<◌, [], length, vec_capacity};
    ghost use Rattle.force_pool.specs.Links.{marks_of};
    ghost use Rattle.force_pool.specs.Sums.{Readiness};

    ghost Value = { Readiness };

    ghost view = { λ r. record { marks = marks_of L.jobs L.faults r.links.items; parts = record { starts = r.starts.parts; replies = r.replies.parts; losses = r.losses.parts } } };

    ghost invariant = { λ r. (r.slots.items ≡ []) × (length r.links.items ≤ vec_capacity r.slots) × (r.back.items ≡ []) × (length r.links.items ≤ vec_capacity r.back)
        × (length r.links.items < r.starts.parts) × (length r.links.items < r.replies.parts) × (length r.links.items < r.losses.parts)
        × (r.starts.amount ≡ 0) × (r.replies.amount ≡ 0) × (r.losses.amount ≡ 0) × (r.retries ≡ S.retries) };
}

impl<L: Link, S: Limits, P: Ledger, O: Ledger> Ready<L, S, P, O> {
    ghost use Rattle.std.specs.Prelude.{◌≡◌, ◌≤◌, ◌<◌, [], length, vec_capacity};
    ghost use Rattle.force_pool.specs.Links.{marks_of};

    pub(crate) fn new(
        links: Vec<L>,
        slots: Vec<Slot<L, S, P, O>>,
        back: Vec<L>,
        starts: Share<S>,
        replies: Share<P>,
        losses: Share<O>,
        retries: u32,
    ) -> Ready<L, S, P, O>
        requires slots { (slots.items ≡ []) × (length links.items ≤ vec_capacity slots) }
        requires back { (back.items ≡ []) × (length links.items ≤ vec_capacity back) }
        requires parts { (length links.items < starts.parts) × (length links.items < replies.parts) × (length links.items < losses.parts) }
        requires amounts { (starts.amount ≡ 0) × (replies.amount ≡ 0) × (losses.amount ≡ 0) }
        requires retries { retries ≡ S.retries }
        ensures { result ≡ record { marks = marks_of L.jobs L.faults links.items; parts = record { starts = starts.parts; replies = replies.parts; losses = losses.parts } } }
    {
        Ready {
            links,
            slots,
            back,
            starts,
            replies,
            losses,
            retries,
        }
    }
}

/// Starts a worker for each link.
pub(crate) fn start_all<'s, E, R, L, S, P, O>(
    scope: &Scope<'s, E>,
    rt: &'s R,
    alloc: Global,
    hall: &'s Hall<L, S, P, O>,
    ready: Ready<L, S, P, O>,
) -> (Vec<Slot<L, S, P, O>>, Tally<L, S, P, O>)
where
    R: Threads + Wait + Sync,
    L: Link + Drop + Send + 's,
    S: Limits + Send + Sync + 's,
    P: Ledger + Send + Sync + 's,
    O: Ledger + Send + Sync + 's,
    ensures slots { result.0.items ≡ ready.marks }
    ensures tally { Begins ready result.1 }
{
    let Ready {
        links,
        mut slots,
        back,
        mut starts,
        mut replies,
        mut losses,
        retries,
    } = ready;
    let left = links.len();
    let mut number = 0u32;
    'links: for link in links {
        let slot = start_one(
            scope,
            rt,
            alloc,
            hall,
            number,
            retries,
            link,
            starts.split_off(1, 0),
            replies.split_off(1, 0),
            losses.split_off(1, 0),
        );
        slots.push_reserved(slot);
        number = number.saturating_add(1);
    }
    let tally = Tally {
        links: back,
        starts,
        replies,
        losses,
        memory: false,
        all_lost: true,
        why: WorkerEnd::Going,
        left,
    };
    (slots, tally)
}
