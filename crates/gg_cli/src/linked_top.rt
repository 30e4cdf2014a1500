//! One command line over links, from its words to what is written.

ghost use Rattle.std.specs.Prelude.{◌≡◌, ◌≢◌, ◌≤◌, ◌⊎◌, Err, None, length, map, string_bytes};
ghost use Rattle.std.specs.List.{AllByRecursion, AllZip};
ghost use Rattle.blob_store.specs.Keeping.{kept};
ghost use Rattle.file_tree.specs.Files.{filed_in};
ghost use Rattle.need_eval.specs.Evaluation.{by_function};
ghost use Rattle.force_pool.specs.Links.{CountsOn, HasNumbers, IsBack, IsLost, marks_of};
ghost use Rattle.force_pool.specs.Report.{IsReport, LeavesOpenJob};
ghost use Rattle.gg_cli.specs.declared.linked_fault.LinkedFault.TheVariants.{Top};
ghost use Rattle.gg_cli.specs.Words.{command_linked, copies_in, retries_in};
ghost use Rattle.gg_cli.specs.Comes.{around, TopCause};
ghost use Rattle.gg_cli.specs.Linked.{asked_by, linked_answer, ComesOver, ComesSome, GivesDiffering, SaysOver, SaysOverUntold};
ghost use Rattle.gg_cli.specs.LinkedSteps.{EndOverCause, EndsOver, EndsSome, KeepsLinks};

use crate::command::Command;
use crate::fault::TopFault;
use crate::linked_command::{LinkedEnd, force_over, unstarted};
use crate::linked_end::{ForceEnd, say_linked};
use crate::status::Status;
use crate::word_fault::WordFault;
use crate::words::read_over;
use blob_store::Keeper;
use file_tree::Tree;
use object_name::{Many, Sink};
use std::alloc::Global;
use std::sync::Wait;
use std::thread::Threads;
use worker_link::Link;

/// Does one command line over links, but for the line of its fault.
fn obey_over<Rt, K, T, L, O>(
    rt: &Rt,
    alloc: Global,
    words: &[String],
    keeper: &mut K,
    tree: &mut T,
    links: Many<L>,
    out: &mut O,
) -> LinkedEnd<L>
where
    Rt: Threads + Wait + Sync,
    K: Keeper,
    T: Tree,
    L: Link + Drop + Send,
    O: Sink,
    requires links { (1 ≤ length links) × (length links ≤ 64) }
    ensures exact { K.tells → T.tells → AllByRecursion L.tells (asked_by (by_function L.outcome) (map string_bytes words.now) (K.store keeper.old) (T.files tree.old)) →
        EndsOver (linked_answer (by_function L.outcome) result.report (map string_bytes words.now) (K.store keeper.old) (T.files tree.old))
        (around (kept K.store K.writes) (filed_in T.files T.changes) O.written keeper.old keeper.new tree.old tree.new out.old out.new) result.end }
    ensures some { K.tells → T.tells → EndsSome L.tells L.outcome (λ outcomes. asked_by outcomes (map string_bytes words.now) (K.store keeper.old) (T.files tree.old))
        (λ outcomes. linked_answer outcomes result.report (map string_bytes words.now) (K.store keeper.old) (T.files tree.old))
        (around (kept K.store K.writes) (filed_in T.files T.changes) O.written keeper.old keeper.new tree.old tree.new out.old out.new) result.end }
    ensures cause { EndOverCause (retries_in (command_linked (map string_bytes words.now))) (around K.faults T.faults O.faults keeper.old keeper.new tree.old tree.new out.old out.new) result.end }
    ensures keeps { KeepsLinks L.tells (length links) (retries_in (command_linked (map string_bytes words.now))) (copies_in (command_linked (map string_bytes words.now))) (marks_of L.jobs L.faults links) (marks_of L.jobs L.faults result.links) result.report result.end }
    ensures usage { result.end ≡ Err (Top TopFault.Usage) → command_linked (map string_bytes words.now) ≡ None }
    ensures no_command { command_linked (map string_bytes words.now) ≡ None → (result.end ≡ Err (Top TopFault.Usage)) ⊎ (result.end ≡ Err (Top TopFault.Memory)) }
    ensures no_input { result.end ≢ Err (Top TopFault.InputFailed) }
{
    match read_over(alloc, words) {
        Ok(
            Command::ForceWith {
                setup,
                report,
                items,
                ..
            },
        ) => force_over(
            rt,
            alloc,
            keeper,
            tree,
            links,
            out,
            items.as_slice(),
            setup,
            report,
        ),
        Ok(_) => unreachable!(),
        Err(WordFault::Usage) => unstarted(alloc, links, TopFault::Usage),
        Err(WordFault::Memory) => unstarted(alloc, links, TopFault::Memory),
    }
}

/// Does one command line that forces over links; other words are none here. The links are those that are handed in, whatever the
/// words say of them, and nothing is to have been sent over them before. The text goes to `out`; a fault's one line goes to `err`,
/// after all else. It may wait for whoever is at the other ends. All links come back.
pub fn force_top<Rt, K, T, L, O, E>(
    rt: &Rt,
    alloc: Global,
    words: &[String],
    keeper: &mut K,
    tree: &mut T,
    links: Many<L>,
    out: &mut O,
    err: &mut E,
) -> ForceEnd<L>
where
    Rt: Threads + Wait + Sync,
    K: Keeper,
    T: Tree,
    L: Link + Drop + Send,
    O: Sink,
    E: Sink,
    requires links { (1 ≤ length links) × (length links ≤ 64) }
    // Where the keeper and the tree tell, and the links tell every job that the evaluation asks for, all is as the answer by the
    // definition with the links' function has it, or a fault stopped it after a prefix: which link did what, when and how often plays no
    // part. Each write and each change is made once, in order: the lists of those that were answered Ok grow by the answer's.
    ensures exact { K.tells → T.tells → AllByRecursion L.tells (asked_by (by_function L.outcome) (map string_bytes words.now) (K.store keeper.old) (T.files tree.old)) →
        ComesOver (linked_answer (by_function L.outcome) result.report (map string_bytes words.now) (K.store keeper.old) (T.files tree.old))
        (around (kept K.store K.writes) (filed_in T.files T.changes) O.written keeper.old keeper.new tree.old tree.new out.old out.new) result.status }
    ensures said { K.tells → T.tells → AllByRecursion L.tells (asked_by (by_function L.outcome) (map string_bytes words.now) (K.store keeper.old) (T.files tree.old)) →
        SaysOver (linked_answer (by_function L.outcome) result.report (map string_bytes words.now) (K.store keeper.old) (T.files tree.old)) result.differs result.status
        (E.written err.old) (E.written err.new) (E.faults err.old) (E.faults err.new) }
    // Whatever the links tell, it is so for some outcomes that fit the jobs, and are the function's where that is told.
    ensures some { K.tells → T.tells → ComesSome L.tells L.outcome result.report (map string_bytes words.now) (K.store keeper.old) (T.files tree.old)
        (around (kept K.store K.writes) (filed_in T.files T.changes) O.written keeper.old keeper.new tree.old tree.new out.old out.new) result.differs result.status
        (E.written err.old) (E.written err.new) (E.faults err.old) (E.faults err.new) }
    // The line that a status alone decides, or the outcomes that differ, is said whatever is told.
    ensures line { SaysOverUntold result.differs result.status (E.written err.old) (E.written err.new) (E.faults err.old) (E.faults err.new) }
    // A fault of the keeper, the tree or the output comes only where its count rose, by more than the retries where calls are tried
    // again, whatever is told.
    ensures cause { TopCause (retries_in (command_linked (map string_bytes words.now))) (around K.faults T.faults O.faults keeper.old keeper.new tree.old tree.new out.old out.new) result.status }
    // The report is a legal history with its numbers, and they fit what was sent on the links and how often these failed.
    ensures report { IsReport (length links) (retries_in (command_linked (map string_bytes words.now))) (copies_in (command_linked (map string_bytes words.now))) result.report }
    ensures numbers { result.status ≢ Status.Memory → AllByRecursion CountsOn (marks_of L.jobs L.faults result.links) →
        HasNumbers (marks_of L.jobs L.faults links) (marks_of L.jobs L.faults result.links) result.report }
    // All links come back, in order.
    ensures links { AllZip IsBack (marks_of L.jobs L.faults links) (marks_of L.jobs L.faults result.links) }
    // Links are lost only where each failed more often than it was tried again, and some job is open.
    ensures lost { result.status ≡ Status.LinksLost → AllZip (IsLost (retries_in (command_linked (map string_bytes words.now)))) (marks_of L.jobs L.faults links) (marks_of L.jobs L.faults result.links) }
    ensures open_job { result.status ≡ Status.LinksLost → LeavesOpenJob (length links) (retries_in (command_linked (map string_bytes words.now))) (copies_in (command_linked (map string_bytes words.now))) result.report }
    // Two outcomes that differ are given exactly where the status is that, and only where a job was sent that isn't told.
    ensures differs { GivesDiffering L.tells (marks_of L.jobs L.faults result.links) result.status result.differs }
    // Words that don't force over links, and no others, are a usage fault, unless memory runs out.
    ensures usage { result.status ≡ Status.Usage → command_linked (map string_bytes words.now) ≡ None }
    ensures no_command { command_linked (map string_bytes words.now) ≡ None → (result.status ≡ Status.Usage) ⊎ (result.status ≡ Status.Memory) }
{
    let LinkedEnd { end, report, links } = obey_over(rt, alloc, words, keeper, tree, links, out);
    match end {
        Ok(()) => ForceEnd {
            status: Status::Done,
            report,
            links,
            differs: None,
        },
        Err(fault) => {
            let (status, differs) = say_linked(alloc, err, fault);
            ForceEnd {
                status,
                report,
                links,
                differs,
            }
        }
    }
}
