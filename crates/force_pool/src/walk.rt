//! The caller's part: it evaluates by need, offers the job at which it stands, and takes outcomes from the desk.

ghost use Rattle.std.specs.Prelude.{◌≡◌, IfOk, IfSome, IsSome};
ghost use Rattle.std.specs.List.{AllByRecursion};
ghost use Rattle.thunk_codec.specs.Outcome.{Fits};
ghost use Rattle.thunk_codec.specs.Reference.{IsRef};
ghost use Rattle.need_eval.specs.Walking.{blocked_at};
ghost use Rattle.force_core.specs.Book.{IsOutcome};
ghost use Rattle.force_pool.specs.Walks.{IsEvaluation, IsOnlyRead, as_walked};

use crate::ahead::Ahead;
use crate::desk::Desk;
use crate::hall::Hall;
use crate::halt::{Halt, Pause};
use crate::limits::Limits;
use crate::run_ahead::RunAhead;
use crate::slot::Slot;
use blob_store::Keeper;
use need_eval::{Prepared, Values, Walked, Walker};
use object_name::Many;
use std::alloc::Global;
use std::sync::Wait;
use std::sync::ledger::Ledger;
use thunk_codec::{Function, Outcome, Ref};
use worker_link::Link;

/// Comes up to what can be run ahead, and says whether more can be made at once. Where memory is refused for that, nothing more is
/// run ahead. The keeper is only read.
#[tactic(auto, using(crate::proofs::KeepersRead::read_none))]
fn come_on<R: Wait, K: Keeper, L: Link, S: Limits, P: Ledger, O: Ledger, A: RunAhead>(
    rt: &R,
    alloc: Global,
    keeper: &mut K,
    hall: &Hall<L, S, P, O>,
    ahead: &mut Option<A>,
) -> bool
    ensures { IsOnlyRead K.tells K.store K.writes K.faults keeper.old keeper.new }
{
    let Some(mut known) = ahead.take() else {
        return false;
    };
    if known.come_on(rt, alloc, keeper, hall).is_err() {
        return false;
    }
    let has_more = known.has_more();
    *ahead = Some(known);
    has_more
}

/// Offers the jobs that are ready ahead. Where memory is refused for that, nothing more is run ahead.
fn offer_ahead<F: Function, S: Limits, P: Ledger, O: Ledger, A: RunAhead>(
    alloc: Global,
    desk: &mut Desk<F, S, P, O>,
    ahead: &mut Option<A>,
) {
    let Some(mut known) = ahead.take() else {
        return;
    };
    let Ok(settled) = desk.settle(alloc, known.take_jobs(alloc)) else {
        return;
    };
    if known.settled(settled).is_ok() {
        *ahead = Some(known);
    }
}

/// Offers the job that is wanted now, where it isn't known, and the jobs that are ready ahead, unless all work was ended.
fn offer_all<F: Function, S: Limits, P: Ledger, O: Ledger, A: RunAhead>(
    alloc: Global,
    desk: &mut Desk<F, S, P, O>,
    prepared: &Prepared,
    ahead: &mut Option<A>,
) -> Result<(), Pause> {
    if desk.is_closed() {
        return Err(Pause::Stopped);
    }
    if desk.offer(alloc, prepared).is_err() {
        return Err(Pause::Memory);
    }
    offer_ahead(alloc, desk, ahead);
    Ok(())
}

/// Whether there may be answers that what is run ahead hasn't heard of.
fn is_behind<F: Function, S: Limits, P: Ledger, O: Ledger, A: RunAhead>(
    desk: &Desk<F, S, P, O>,
    ahead: &Option<A>,
) -> bool {
    match ahead {
        Some(known) => known.is_behind(desk.firsts()),
        None => false,
    }
}

/// Whether some worker is the caller's, and can go on.
fn is_some_here<L: Link, S: Limits, P: Ledger, O: Ledger>(slots: &[Slot<L, S, P, O>]) -> bool {
    slots.iter().any(|slot| slot.is_here())
}

/// Takes one step of each worker that is the caller's. False where none had one to take.
fn step_here<R: Wait, L: Link, S: Limits, P: Ledger, O: Ledger>(
    rt: &R,
    alloc: Global,
    hall: &Hall<L, S, P, O>,
    slots: &mut Vec<Slot<L, S, P, O>>,
) -> bool
    ensures { slots.new.items ≡ slots.old.items }
{
    let mut stepped = false;
    'slots: for at in 0..slots.len() {
        let has_stepped = slots[at].step_here(rt, alloc, hall);
        stepped = stepped || has_stepped;
    }
    stepped
}

/// Offers all jobs that are ready, and looks for the outcome of the one that is wanted now. It waits where it isn't there and
/// nothing else is to be done: the caller's workers have had no step to take, and nothing was entered meanwhile.
fn look<R: Wait, L: Link, S: Limits, P: Ledger, O: Ledger, A: RunAhead>(
    rt: &R,
    alloc: Global,
    hall: &Hall<L, S, P, O>,
    is_here: bool,
    has_stepped: bool,
    prepared: &Prepared,
    ahead: &mut Option<A>,
) -> Result<Option<Outcome>, Pause>
    ensures { IfOk result (λ found. IfSome found (λ outcome. IsOutcome L.tells L.outcome prepared.now.job outcome)) }
{
    let mut desk = hall.desk.lock(rt);
    offer_all(alloc, &mut desk, prepared, ahead)?;
    hall.moved.notify_all();
    if let Some(outcome) = desk.take(prepared) {
        return Ok(Some(outcome));
    }
    if is_behind(&desk, ahead) {
        return Ok(None);
    }
    if is_here && (has_stepped || desk.is_left()) {
        return Ok(None);
    }
    if desk.is_left() {
        return Err(Pause::Stopped);
    }
    let _desk = hall.moved.wait(rt, desk);
    Ok(None)
}

/// Comes up to what can be run ahead, and offers it where more can be made at once; says whether that is so. The keeper is only read.
#[tactic(auto, using(crate::proofs::KeepersRead::read_none))]
fn offer_more<R: Wait, K: Keeper, L: Link, S: Limits, P: Ledger, O: Ledger, A: RunAhead>(
    rt: &R,
    alloc: Global,
    keeper: &mut K,
    hall: &Hall<L, S, P, O>,
    ahead: &mut Option<A>,
    prepared: &Prepared,
) -> Result<bool, Pause>
    ensures { IsOnlyRead K.tells K.store K.writes K.faults keeper.old keeper.new }
{
    if !come_on(rt, alloc, keeper, hall, ahead) {
        return Ok(false);
    }
    offer_all(alloc, &mut hall.desk.lock(rt), prepared, ahead)?;
    Ok(true)
}

/// The outcome of a job, when it is there. It is looked for once all jobs that are ready ahead were offered, as far as the book has
/// room for them.
#[tactic(auto, using(crate::proofs::KeepersRead::read_none, crate::proofs::KeepersRead::read_both))]
fn awaited<R: Wait, K: Keeper, L: Link, S: Limits, P: Ledger, O: Ledger, A: RunAhead>(
    rt: &R,
    alloc: Global,
    keeper: &mut K,
    hall: &Hall<L, S, P, O>,
    slots: &mut Vec<Slot<L, S, P, O>>,
    ahead: &mut Option<A>,
    prepared: &Prepared,
) -> Result<Outcome, Pause>
    ensures outcome { IfOk result (λ outcome. IsOutcome L.tells L.outcome prepared.now.job outcome) }
    ensures slots { slots.new.items ≡ slots.old.items }
    ensures reads { IsOnlyRead K.tells K.store K.writes K.faults keeper.old keeper.new }
{
    let mut has_stepped = true;
    'rounds: for _ in rt.forever() {
        if offer_more(rt, alloc, keeper, hall, ahead, prepared)? {
            continue;
        }
        let is_here = is_some_here(slots.as_slice());
        if let Some(outcome) = look(rt, alloc, hall, is_here, has_stepped, prepared, ahead)? {
            return Ok(outcome);
        }
        has_stepped = step_here(rt, alloc, hall, slots);
    }
    unreachable!()
}

/// The outcome of the job that a walker waits for.
fn awaited_by<R: Wait, K: Keeper, L: Link, S: Limits, P: Ledger, O: Ledger, A: RunAhead>(
    rt: &R,
    alloc: Global,
    keeper: &mut K,
    hall: &Hall<L, S, P, O>,
    slots: &mut Vec<Slot<L, S, P, O>>,
    ahead: &mut Option<A>,
    walker: &Walker,
) -> Result<Outcome, Pause>
    requires { IsSome (blocked_at walker.now) }
    ensures fits { IfOk result (λ outcome. IfSome (blocked_at walker.now) (λ prepared. Fits prepared.job outcome)) }
    ensures told { IfOk result (λ outcome. IfSome (blocked_at walker.now) (λ prepared. L.tells prepared.job → outcome ≡ L.outcome prepared.job)) }
    ensures slots { slots.new.items ≡ slots.old.items }
    ensures reads { IsOnlyRead K.tells K.store K.writes K.faults keeper.old keeper.new }
{
    match walker.blocked() {
        Some(prepared) => awaited(rt, alloc, keeper, hall, slots, ahead, prepared),
        None => unreachable!(),
    }
}

/// The values of references, by need, with outcomes that workers find, and with what can be run ahead.
fn walk_with<R: Wait, K: Keeper, L: Link, S: Limits, P: Ledger, O: Ledger, A: RunAhead>(
    rt: &R,
    alloc: Global,
    keeper: &mut K,
    refs: Many<Ref>,
    budget: u32,
    retries: u32,
    hall: &Hall<L, S, P, O>,
    slots: &mut Vec<Slot<L, S, P, O>>,
    ahead: &mut Option<A>,
) -> Result<Values, Halt>
    requires { AllByRecursion IsRef refs }
    ensures evaluates { IsEvaluation K.tells K.store K.writes K.faults L.tells L.outcome budget retries refs keeper.old keeper.new (as_walked result) }
    ensures slots { slots.new.items ≡ slots.old.items }
{
    let mut walker = Walker::new(alloc, refs, budget, retries)?;
    'walk: loop {
        match walker.advance(alloc, keeper)? {
            Walked::Ended(values) => return Ok(values),
            Walked::Blocked => {}
        }
        let outcome = awaited_by(rt, alloc, keeper, hall, slots, ahead, &walker)?;
        walker.supply(alloc, keeper, outcome)?;
        step_here(rt, alloc, hall, slots);
    }
}

/// The values of references, by need, with outcomes that workers find.
pub(crate) fn walk<R: Wait, K: Keeper, L: Link, S: Limits, P: Ledger, O: Ledger>(
    rt: &R,
    alloc: Global,
    keeper: &mut K,
    refs: Many<Ref>,
    budget: u32,
    retries: u32,
    hall: &Hall<L, S, P, O>,
    slots: &mut Vec<Slot<L, S, P, O>>,
) -> Result<Values, Halt>
    requires { AllByRecursion IsRef refs }
    ensures evaluates { IsEvaluation K.tells K.store K.writes K.faults L.tells L.outcome budget retries refs keeper.old keeper.new (as_walked result) }
    ensures slots { slots.new.items ≡ slots.old.items }
{
    let mut ahead = Ahead::new(alloc, &refs, retries).ok();
    walk_with(
        rt, alloc, keeper, refs, budget, retries, hall, slots, &mut ahead,
    )
}
