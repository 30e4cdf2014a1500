//! Forcing with links.

ghost use Rattle.std.specs.Prelude.{◌≡◌, ◌≢◌, ◌≤◌, ◌+◌, [], Err, length, vec_capacity, IfOk, IfErr};
ghost use Rattle.std.specs.List.{AllByRecursion, AllZip};
ghost use Rattle.object_name.specs.Causes.{RoseBy};
ghost use Rattle.thunk_codec.specs.Reference.{IsRef};
ghost use Rattle.blob_store.specs.Keeping.{kept};
ghost use Rattle.need_eval.specs.Evaluating.{EvaluatesAll, EvaluatesSome, EvaluatesInFull};
ghost use Rattle.need_eval.specs.StepContracts.{HasKeeperCause};
ghost use Rattle.force_pool.specs.declared.fault.ForceFault.TheVariants.{LinksLost, Memory};
ghost use Rattle.force_pool.specs.Concluding.{IsPoolEnd};
ghost use Rattle.force_pool.specs.Forcing.{as_evaluated};
ghost use Rattle.force_pool.specs.Links.{marks_of, IsBack, IsLost, DiffersBy, CountsOn, HasNumbers};
ghost use Rattle.force_pool.specs.Report.{IsReport, LeavesOpenJob};
ghost use Rattle.force_pool.specs.Sums.{IsBegun};
ghost use Rattle.force_pool.specs.Walks.{IsEvaluation};

use crate::concluding::concluded;
use crate::counting::{firsts_in, losses_in, starts_in};
use crate::desk::{Closing, Desk};
use crate::fault::ForceFault;
use crate::hall::Hall;
use crate::limits::Limits;
use crate::ready::Ready;
use crate::report::{PoolEnd, Report, Setup};
use crate::scoped::{Wanted, walked_with_workers};
use crate::tally::Tally;
use blob_store::Keeper;
use force_core::Book;
use object_name::Many;
use std::alloc::{AllocError, Global};
use std::marker::Brand;
use std::sync::ledger::{Blank, Ledger};
use std::sync::{Condvar, Mutex, Wait};
use std::thread::Threads;
use thunk_codec::Ref;
use worker_link::Link;

/// As many marks as workers, with none set.
fn unmarked(alloc: Global, count: usize) -> Result<Vec<bool>, AllocError> {
    let mut marks = Vec::new(alloc);
    'marks: for _ in 0..count {
        marks.push(false)?;
    }
    Ok(marks)
}

/// An empty list with room.
fn with_room<T: Drop>(alloc: Global, count: usize) -> Result<Vec<T>, AllocError>
    ensures { IfOk result (λ room. (room.items ≡ []) × (count ≤ vec_capacity room)) }
{
    let mut room = Vec::new(alloc);
    room.reserve(count)?;
    Ok(room)
}

/// What a call gives back that couldn't begin for want of memory.
fn unbegun<L>(alloc: Global, links: Many<L>) -> PoolEnd<L>
    ensures links { result.links ≡ links }
    ensures end { result.end ≡ Err Memory }
    ensures report { (result.report.starts ≡ 0) × (result.report.replies ≡ 0) × (result.report.losses ≡ 0) × (result.report.history ≡ []) }
{
    PoolEnd {
        end: Err(ForceFault::Memory),
        report: Report {
            starts: 0,
            replies: 0,
            losses: 0,
            history: Many::new(alloc),
        },
        links,
    }
}

/// What all threads share, and the links with what their workers need. The links come back where memory is refused.
fn begin<L: Link + Drop, S: Limits, P: Ledger, O: Ledger>(
    alloc: Global,
    setup: &Setup,
    links: Many<L>,
    starts: Blank,
    replies: Blank,
    losses: Blank,
) -> Result<(Hall<L, S, P, O>, Ready<L, S, P, O>), Many<L>>
    requires links { (1 ≤ length links) × (length links ≤ 64) }
    requires setup { (setup.now.retries ≤ 16) × (1 ≤ setup.now.copies) × (setup.now.copies ≤ 4) }
    requires starts { (starts.name ≡ S.name) × (starts.parts ≡ S.parts) × (S.parts ≡ length links + 1) }
    requires replies { (replies.name ≡ P.name) × (replies.parts ≡ P.parts) × (P.parts ≡ length links + 1) }
    requires losses { (losses.name ≡ O.name) × (losses.parts ≡ O.parts) × (O.parts ≡ length links + 1) }
    requires limits { (S.workers ≡ length links) × (S.retries ≡ setup.now.retries) × (S.copies ≡ setup.now.copies) }
    ensures ok { IfOk result (λ begun. IsBegun (marks_of L.jobs L.faults links) S.parts P.parts O.parts begun.1) }
    ensures err { IfErr result (λ back. back ≡ links) }
{
    let count = links.len();
    let Ok(book) = Book::new(alloc, count as u32, setup.retries, setup.copies) else {
        return Err(links);
    };
    let Ok(slots) = with_room(alloc, count) else {
        return Err(links);
    };
    let Ok(back) = with_room(alloc, count) else {
        return Err(links);
    };
    let Ok(marks) = unmarked(alloc, count) else {
        return Err(links);
    };
    let (start_book, starts) = starts.open::<S>();
    let (reply_book, replies) = replies.open::<P>();
    let (loss_book, losses) = losses.open::<O>();
    let desk = Desk::new(book, start_book, reply_book, loss_book, marks, count);
    let hall = Hall {
        desk: Mutex::new(desk),
        moved: Condvar::new(),
    };
    let ready = Ready::new(links.0, slots, back, starts, replies, losses, setup.retries);
    Ok((hall, ready))
}

/// Forces references with links, under ledgers that were picked.
fn force_under<Rt, K, L, S, P, O>(
    rt: &Rt,
    alloc: Global,
    keeper: &mut K,
    refs: Many<Ref>,
    setup: &Setup,
    links: Many<L>,
    starts: Blank,
    replies: Blank,
    losses: Blank,
) -> PoolEnd<L>
where
    Rt: Threads + Wait + Sync,
    K: Keeper,
    L: Link + Drop + Send,
    S: Limits + Send + Sync,
    P: Ledger + Send + Sync,
    O: Ledger + Send + Sync,
    requires refs { AllByRecursion IsRef refs }
    requires links { (1 ≤ length links) × (length links ≤ 64) }
    requires setup { (setup.now.retries ≤ 16) × (1 ≤ setup.now.copies) × (setup.now.copies ≤ 4) }
    requires starts { (starts.name ≡ S.name) × (starts.parts ≡ S.parts) × (S.parts ≡ length links + 1) }
    requires replies { (replies.name ≡ P.name) × (replies.parts ≡ P.parts) × (P.parts ≡ length links + 1) }
    requires losses { (losses.name ≡ O.name) × (losses.parts ≡ O.parts) × (O.parts ≡ length links + 1) }
    requires limits { (S.workers ≡ length links) × (S.retries ≡ setup.now.retries) × (S.copies ≡ setup.now.copies) }
    ensures evaluates { IsEvaluation K.tells K.store K.writes K.faults L.tells L.outcome setup.now.budget setup.now.retries refs keeper.old keeper.new (as_evaluated result.end) }
    ensures pool { IsPoolEnd L.tells (length links) setup.now.retries setup.now.copies (marks_of L.jobs L.faults links) (marks_of L.jobs L.faults result.links) result.report result.end }
{
    let (hall, ready) = match begin::<L, S, P, O>(alloc, setup, links, starts, replies, losses) {
        Ok(begun) => begun,
        Err(links) => return unbegun(alloc, links),
    };
    let (walked, tally) = walked_with_workers(
        rt,
        alloc,
        keeper,
        Wanted::new(refs),
        setup.budget,
        setup.retries,
        &hall,
        ready,
    );
    let Hall { desk, moved: _ } = hall;
    let Tally {
        links,
        mut starts,
        mut replies,
        mut losses,
        memory,
        all_lost,
        why,
        left: _,
    } = tally;
    let Closing { history, has_open } = desk
        .into_inner()
        .finish(&mut starts, &mut replies, &mut losses);
    let report = Report {
        starts: starts_in(history.as_slice()),
        replies: firsts_in(history.as_slice()),
        losses: losses_in(history.as_slice()),
        history,
    };
    PoolEnd {
        end: concluded(walked, memory, all_lost, why, has_open),
        report,
        links: Many(links),
    }
}

/// The values of references, by need, with outcomes that come over links, each of which is served by a worker in a thread of its
/// own. It may wait for them. All links come back.
///
/// The links are to be such as nothing was sent over.
pub fn force_with_links<Rt: Threads + Wait + Sync, K: Keeper, L: Link + Drop + Send>(
    rt: &Rt,
    alloc: Global,
    keeper: &mut K,
    refs: Many<Ref>,
    setup: Setup,
    links: Many<L>,
) -> PoolEnd<L>
    requires refs { AllByRecursion IsRef refs }
    requires links { (1 ≤ length links) × (length links ≤ 64) }
    requires setup { (setup.retries ≤ 16) × (1 ≤ setup.copies) × (setup.copies ≤ 4) }
    // Where the jobs of the evaluation are told, it is the evaluation with the links' function, or stops after a prefix of its
    // writes: at a fault of the keeper, for want of memory, or where the links are lost or two answers differ. Each write was put
    // once, in order.
    ensures exact { K.tells → EvaluatesAll L.tells L.outcome setup.budget refs (kept K.store K.writes keeper.old) (kept K.store K.writes keeper.new) (as_evaluated result.end) }
    // Where they aren't, there are outcomes that fit them for which it is so.
    ensures some { K.tells → EvaluatesSome L.tells L.outcome setup.budget refs (kept K.store K.writes keeper.old) (kept K.store K.writes keeper.new) (as_evaluated result.end) }
    // The evaluation's own faults have their causes, and no run fails.
    ensures cause { HasKeeperCause setup.retries (K.faults keeper.old) (K.faults keeper.new) (as_evaluated result.end) }
    // Where the keeper's faults are few enough and no two objects that are met have one name, the answer is the definition's, or the
    // evaluation stopped part way.
    ensures undisturbed { K.tells → (RoseBy setup.retries (K.faults keeper.old) (K.faults keeper.new) → ⊥) →
        EvaluatesInFull L.tells L.outcome setup.budget refs (kept K.store K.writes keeper.old) (kept K.store K.writes keeper.new) (as_evaluated result.end) }
    // The report is a legal history with its numbers.
    ensures report { IsReport (length links) setup.retries setup.copies result.report }
    ensures links { AllZip IsBack (marks_of L.jobs L.faults links) (marks_of L.jobs L.faults result.links) }
    ensures numbers { result.end ≢ Err Memory → AllByRecursion CountsOn (marks_of L.jobs L.faults result.links) →
        HasNumbers (marks_of L.jobs L.faults links) (marks_of L.jobs L.faults result.links) result.report }
    // Links are lost only where each failed more often than it was tried again, and some job is open.
    ensures lost { result.end ≡ Err LinksLost → AllZip (IsLost setup.retries) (marks_of L.jobs L.faults links) (marks_of L.jobs L.faults result.links) }
    ensures open_job { result.end ≡ Err LinksLost → LeavesOpenJob (length links) setup.retries setup.copies result.report }
    // Answers differ only where a job was sent that isn't told.
    ensures differs { DiffersBy L.tells (marks_of L.jobs L.faults result.links) result.end }
{
    let parts = links.len() as u64 + 1;
    force_under::<Rt, K, L, Brand, Brand, Brand>(
        rt,
        alloc,
        keeper,
        refs,
        &setup,
        links,
        Blank::new(parts),
        Blank::new(parts),
        Blank::new(parts),
    )
}
