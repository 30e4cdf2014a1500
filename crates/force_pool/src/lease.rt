//! One lease on one link.

ghost use Rattle.std.specs.Prelude.{◌≡◌, ◌≤◌, ◌<◌, ◌+◌, IfOk, IfSome, IfNone, OnErr};
ghost use Rattle.std.specs.Arc.{arc_value};
ghost use Rattle.job_wire.specs.Frame.{IsJob};
ghost use Rattle.worker_link.specs.Link.{IsReply, MaySend};
ghost use Rattle.worker_link.specs.Sent.{is_latest};
ghost use Rattle.worker_link.specs.declared.phase.Phase.TheVariants.{Idle, Waiting};
ghost use Rattle.force_pool.specs.Entering.{DiffersUnlessTold};
ghost use Rattle.force_pool.specs.Hearing.{Hears, HearsOnce, Runs};
ghost use Rattle.force_pool.specs.Links.{AllTold};

use crate::entered::Entered;
use crate::hall::Hall;
use crate::heard::Heard;
use crate::limits::Limits;
use force_core::Start;
use job_wire::seal;
use object_name::Trouble;
use std::alloc::{AllocError, Global};
use std::sync::Wait;
use std::sync::ledger::{Ledger, Share};
use thunk_codec::{Function, Outcome};
use worker_link::{Link, Sent, only};

/// Takes a lease, and waits for one while there may be one. A worker that is the caller's doesn't wait.
pub(crate) fn take_lease<R: Wait, F: Function, S: Limits, P: Ledger, O: Ledger>(
    rt: &R,
    hall: &Hall<F, S, P, O>,
    worker: u32,
    mine: &mut Share<S>,
) -> Result<Option<Start>, AllocError>
    requires { 0 < mine.old.parts }
    ensures some { IfOk result (λ found. IfSome found (λ _. mine.new.amount ≡ mine.old.amount + 1)) }
    ensures is_job { IfOk result (λ found. IfSome found (λ start. IsJob (arc_value start.job))) }
    ensures none { IfOk result (λ found. IfNone found (mine.new.amount ≡ mine.old.amount)) }
    ensures err { OnErr result (mine.new.amount ≡ mine.old.amount) }
    ensures parts { mine.new.parts ≡ mine.old.parts }
{
    let mut desk = hall.desk.lock(rt);
    'rounds: for _ in rt.forever() {
        if let Some(start) = desk.start(worker, mine)? {
            return Ok(Some(start));
        }
        if desk.is_closed() {
            return Ok(None);
        }
        if desk.is_marked(worker) {
            return Ok(None);
        }
        desk = hall.moved.wait(rt, desk);
    }
    unreachable!()
}

/// Ends all work: no more leases are started.
pub(crate) fn stop<R: Wait, F: Function, S: Limits, P: Ledger, O: Ledger>(
    rt: &R,
    hall: &Hall<F, S, P, O>,
) {
    hall.desk.lock(rt).close();
    hall.moved.notify_all();
}

/// Enters the loss of a lease, where there is one to enter.
pub(crate) fn lose<R: Wait, F: Function, S: Limits, P: Ledger, O: Ledger>(
    rt: &R,
    hall: &Hall<F, S, P, O>,
    lease: u64,
    mine: &mut Share<O>,
)
    requires { 0 < mine.old.parts }
    ensures amount { (mine.old.amount ≤ mine.new.amount) × (mine.new.amount ≤ mine.old.amount + 1) }
    ensures parts { mine.new.parts ≡ mine.old.parts }
{
    hall.desk.lock(rt).lose(lease, mine);
    hall.moved.notify_all();
}

/// Enters a reply, where exactly one job was sent under its lease.
fn enter<R: Wait, L: Link, S: Limits, P: Ledger, O: Ledger>(
    rt: &R,
    alloc: Global,
    hall: &Hall<L, S, P, O>,
    link: &L,
    lease: u64,
    outcome: Outcome,
    mine: &mut Share<P>,
) -> Entered
    requires reply { IsReply L.tells L.outcome (L.jobs link.now) lease outcome }
    requires part { 0 < mine.old.parts }
    ensures differs { DiffersUnlessTold (AllTold L.tells (L.jobs link.now)) result }
    ensures parts { mine.new.parts ≡ mine.old.parts }
    ensures amount { mine.old.amount ≤ mine.new.amount }
{
    let Some(sent) = only(link.sent(), lease) else {
        return Entered::Done;
    };
    let Ok(sealed) = seal(alloc, outcome) else {
        return Entered::Memory;
    };
    let entered = hall
        .desk
        .lock(rt)
        .reply(alloc, lease, sent.job(), sealed, mine);
    hall.moved.notify_all();
    entered
}

/// Whether a lease is that of the job that was sent last.
fn is_latest(sent: &[Sent], lease: u64) -> bool
    ensures { result ≡ is_latest sent.now lease }
{
    match sent.last() {
        Some(last) => last.lease() == lease,
        None => false,
    }
}

/// Listens for one reply. None where it was on another lease than that of the job that was sent last.
fn hear_once<R: Wait, L: Link, S: Limits, P: Ledger, O: Ledger>(
    rt: &R,
    alloc: Global,
    hall: &Hall<L, S, P, O>,
    link: &mut L,
    mine: &mut Share<P>,
) -> Option<Heard>
    requires waiting { L.phase link.old ≡ Waiting }
    requires part { 0 < mine.old.parts }
    ensures same { L.jobs link.new ≡ L.jobs link.old }
    ensures later { L.faults link.old ≤ L.faults link.new }
    ensures heard { HearsOnce L.tells (L.jobs link.new) (L.phase link.new) (L.faults link.old) (L.faults link.new) result }
    ensures parts { mine.new.parts ≡ mine.old.parts }
    ensures amount { mine.old.amount ≤ mine.new.amount }
{
    match link.receive(alloc) {
        Err(Trouble::Failed) => Some(Heard::Failed),
        Err(Trouble::Memory) => Some(Heard::Memory),
        Ok((found, outcome)) => match enter(rt, alloc, hall, link, found, outcome, mine) {
            Entered::Memory => Some(Heard::Memory),
            Entered::Differs {
                resolved,
                first,
                second,
            } => Some(Heard::Differs {
                resolved,
                first,
                second,
            }),
            Entered::Done => {
                if is_latest(link.sent(), found) {
                    Some(Heard::Answered)
                } else {
                    None
                }
            }
        },
    }
}

/// Listens until the reply on the job that was sent last comes, and enters each reply on the way.
fn hear<R: Wait, L: Link, S: Limits, P: Ledger, O: Ledger>(
    rt: &R,
    alloc: Global,
    hall: &Hall<L, S, P, O>,
    link: &mut L,
    mine: &mut Share<P>,
) -> Heard
    requires waiting { L.phase link.old ≡ Waiting }
    requires part { 0 < mine.old.parts }
    ensures same { L.jobs link.new ≡ L.jobs link.old }
    ensures later { L.faults link.old ≤ L.faults link.new }
    ensures heard { Hears L.tells (L.jobs link.new) (L.phase link.new) (L.faults link.old) (L.faults link.new) result }
    ensures parts { mine.new.parts ≡ mine.old.parts }
    ensures amount { mine.old.amount ≤ mine.new.amount }
{
    'replies: for _ in rt.forever() {
        if let Some(heard) = hear_once(rt, alloc, hall, link, mine) {
            return heard;
        }
    }
    unreachable!()
}

/// Sends the job of a lease, and listens.
pub(crate) fn run<R: Wait, L: Link, S: Limits, P: Ledger, O: Ledger>(
    rt: &R,
    alloc: Global,
    hall: &Hall<L, S, P, O>,
    link: &mut L,
    start: &Start,
    mine: &mut Share<P>,
) -> Heard
    requires idle { L.phase link.old ≡ Idle }
    requires is_job { IsJob (arc_value start.now.job) }
    requires part { 0 < mine.old.parts }
    ensures may { MaySend (L.jobs link.old) (start.now.lease, arc_value start.now.job) (L.jobs link.new) }
    ensures later { L.faults link.old ≤ L.faults link.new }
    ensures runs { Runs L.tells (start.now.lease, arc_value start.now.job) (L.jobs link.old) (L.jobs link.new) (L.phase link.new) (L.faults link.old) (L.faults link.new) result }
    ensures parts { mine.new.parts ≡ mine.old.parts }
    ensures amount { mine.old.amount ≤ mine.new.amount }
{
    match link.send(alloc, start.lease, &start.job) {
        Err(Trouble::Failed) => Heard::Failed,
        Err(Trouble::Memory) => Heard::Memory,
        Ok(()) => hear(rt, alloc, hall, link, mine),
    }
}
