//! The command `force` over links: values of wanted items by jobs that are done elsewhere, to the files and the output.

ghost use Rattle.std.specs.Prelude.{◌≡◌, ◌≢◌, ◌≤◌, ◌∷◌, [], ℕ, All, List, Option, Err, length};
ghost use Rattle.std.specs.List.{AllByRecursion};
ghost use Rattle.thunk_codec.specs.declared.reference.Ref.{Ref};
ghost use Rattle.thunk_codec.specs.declared.job.Job.{Job};
ghost use Rattle.thunk_codec.specs.declared.job.Outcome.{Outcome};
ghost use Rattle.blob_store.specs.Keeping.{Kept, kept};
ghost use Rattle.file_tree.specs.Files.{filed_in};
ghost use Rattle.file_tree.specs.Wanted.{IsItem, wanted_of};
ghost use Rattle.need_eval.specs.Eval.{start};
ghost use Rattle.need_eval.specs.Evaluation.{values_of, by_function};
ghost use Rattle.need_eval.specs.MetObjects.{AreHeld};
ghost use Rattle.need_eval.specs.StepContracts.{HasKeeperCause};
ghost use Rattle.need_eval.specs.WritePrefix.{Does};
ghost use Rattle.force_pool.specs.Forcing.{as_evaluated};
ghost use Rattle.force_pool.specs.Links.{marks_of};
ghost use Rattle.gg_cli.specs.declared.linked_fault.LinkedFault.TheVariants.{Top};
ghost use Rattle.gg_cli.specs.Answer.{forced_with, wanted_forced_with};
ghost use Rattle.gg_cli.specs.Comes.{around};
ghost use Rattle.gg_cli.specs.Linked.{asked_for, linked_text, report_lines};
ghost use Rattle.gg_cli.specs.LinkedSteps.{ConcludesAs, EndOverCause, EndsOver, EndsSome, HoldsValues, IsFaultOver, IsNoRunFault, KeepsLinks, NamesOver, NoRunFailed, conclude_counts, conclude_made};
ghost use Rattle.gg_cli.specs.StepContracts.{EndCause, HandsOutWith};
ghost use Rattle.gg_cli.specs.Writing.{Writes};

use crate::fault::{TopFault, output_fault};
use crate::force_command::fault_of;
use crate::linked_fault::LinkedFault;
use crate::script_lines::print_number;
use crate::value_files::write_files;
use crate::value_lines::print_values;
use blob_store::Keeper;
use file_tree::{Item, Tree, wanted};
use force_pool::{ForceFault, PoolEnd, Report, Setup, force_with_links};
use need_eval::Values;
use object_name::{Many, Name, Sink, Trouble};
use std::alloc::Global;
use std::sync::Wait;
use std::thread::Threads;
use worker_link::Link;

/// How forcing over links ended, before the line of a fault is said.
#[derive(Drop)]
pub(crate) struct LinkedEnd<L> {
    /// All is done, or why it isn't.
    pub end: Result<(), LinkedFault>,
    /// What happened to the jobs.
    pub report: Report,
    /// The links that were given, in order.
    pub links: Many<L>,
}

/// What is left where no job was started.
pub(crate) fn unstarted<L>(alloc: Global, links: Many<L>, fault: TopFault) -> LinkedEnd<L>
    ensures links { result.links ≡ links }
    ensures end { result.end ≡ Err (Top fault) }
    ensures report { (result.report.starts ≡ 0) × (result.report.replies ≡ 0) × (result.report.losses ≡ 0) × (result.report.history ≡ []) }
{
    LinkedEnd {
        end: Err(LinkedFault::Top(fault)),
        report: Report {
            starts: 0,
            replies: 0,
            losses: 0,
            history: Many::new(alloc),
        },
        links,
    }
}

/// The fault that forcing over links ended with.
fn fault_over(fault: ForceFault) -> LinkedFault
    requires { IsNoRunFault fault }
    ensures is_fault { IsFaultOver fault result }
    ensures no_usage { result ≢ Top TopFault.Usage }
    ensures no_input { result ≢ Top TopFault.InputFailed }
{
    match fault {
        ForceFault::Eval(fault) => LinkedFault::Top(fault_of(&fault)),
        ForceFault::Differs {
            resolved,
            first,
            second,
        } => LinkedFault::Differs {
            resolved,
            first,
            second,
        },
        ForceFault::LinksLost => LinkedFault::LinksLost,
        ForceFault::Memory => LinkedFault::Top(TopFault::Memory),
    }
}

/// The names of the values, or why there are none.
fn names_of(values: Result<Values, ForceFault>) -> Result<Many<Name>, LinkedFault>
    requires { NoRunFailed values }
    ensures names { NamesOver values result }
    ensures no_usage { result ≢ Err (Top TopFault.Usage) }
    ensures no_input { result ≢ Err (Top TopFault.InputFailed) }
{
    match values {
        Ok(values) => Ok(values.names),
        Err(fault) => Err(fault_over(fault)),
    }
}

/// Writes the numbers of a report, each in a line.
fn print_report<O: Sink>(alloc: Global, out: &mut O, report: &Report) -> Result<(), Trouble>
    ensures { Writes (report_lines report.now) (O.written out.old) (O.written out.new) (O.faults out.old) (O.faults out.new) result }
{
    print_number(alloc, out, b"starts ", report.starts)?;
    print_number(alloc, out, b"replies ", report.replies)?;
    print_number(alloc, out, b"losses ", report.losses)
}

/// Writes a line for each value, in order, and then the numbers of the report where they are wanted.
fn print_all<O: Sink>(
    alloc: Global,
    out: &mut O,
    names: &[Name],
    items: &[Item],
    wanted: bool,
    report: &Report,
) -> Result<(), Trouble>
    ensures { Writes (linked_text wanted report.now names.now items.now) (O.written out.old) (O.written out.new) (O.faults out.old) (O.faults out.new) result }
{
    print_values(alloc, out, names, items)?;
    if wanted {
        return print_report(alloc, out, report);
    }
    Ok(())
}

/// Writes the values to the files that wanted them, and then prints what is wanted.
fn hand_out<K: Keeper, T: Tree, O: Sink>(
    alloc: Global,
    keeper: &mut K,
    tree: &mut T,
    out: &mut O,
    names: &[Name],
    items: &[Item],
    retries: u32,
    wanted: bool,
    report: &Report,
) -> Result<(), TopFault>
    requires { K.tells → AreHeld (K.store keeper.old) names.now }
    ensures ends { K.tells → T.tells → HandsOutWith (linked_text wanted report.now names.now items.now) names.now items.now (kept K.store K.writes keeper.old) (kept K.store K.writes keeper.new)
        (filed_in T.files T.changes tree.old) (filed_in T.files T.changes tree.new) (O.written out.old) (O.written out.new) result }
    ensures cause { EndCause retries (around K.faults T.faults O.faults keeper.old keeper.new tree.old tree.new out.old out.new) result }
    ensures kept_later { K.faults keeper.old ≤ K.faults keeper.new }
    ensures files_later { T.faults tree.old ≤ T.faults tree.new }
    ensures no_usage { result ≢ Err TopFault.Usage }
    ensures no_input { result ≢ Err TopFault.InputFailed }
{
    write_files(alloc, keeper, tree, names, items, retries)?;
    match print_all(alloc, out, names, items, wanted, report) {
        Ok(()) => Ok(()),
        Err(trouble) => Err(output_fault(trouble)),
    }
}

/// Hands out the values that forcing over links ended with.
fn conclude<K: Keeper, T: Tree, O: Sink>(
    alloc: Global,
    keeper: &mut K,
    tree: &mut T,
    out: &mut O,
    values: Result<Values, ForceFault>,
    items: &[Item],
    retries: u32,
    wanted: bool,
    report: &Report,
) -> Result<(), LinkedFault>
    requires no_run { NoRunFailed values }
    requires held { K.tells → HoldsValues (K.store keeper.old) values }
    ensures ends { K.tells → T.tells → (outcomes : ℕ → Job → Option Outcome) (budget : ℕ) (refs : List Ref) (before : Kept) →
        Does before.writes (start before.store) (values_of outcomes budget refs (start before.store)) (kept K.store K.writes keeper.old) (as_evaluated values) →
        EndsOver (forced_with (linked_text wanted report.now) items.now (values_of outcomes budget refs (start before.store)))
        (conclude_made before (kept K.store K.writes keeper.new) (filed_in T.files T.changes tree.old) (filed_in T.files T.changes tree.new) (O.written out.old) (O.written out.new)) result }
    ensures cause { (before : ℕ) → HasKeeperCause retries before (K.faults keeper.old) (as_evaluated values) →
        EndOverCause retries (conclude_counts before (K.faults keeper.new) (T.faults tree.old) (T.faults tree.new) (O.faults out.old) (O.faults out.new)) result }
    ensures concludes { ConcludesAs values result }
    ensures no_usage { result ≢ Err (Top TopFault.Usage) }
    ensures no_input { result ≢ Err (Top TopFault.InputFailed) }
{
    let names = names_of(values)?;
    match hand_out(
        alloc,
        keeper,
        tree,
        out,
        names.as_slice(),
        items,
        retries,
        wanted,
        report,
    ) {
        Ok(()) => Ok(()),
        Err(fault) => Err(LinkedFault::Top(fault)),
    }
}

/// Does `force` over links: the references of the items, their values by jobs that go over the links, the files of the items, a
/// line for each value, and the numbers of the report where they are wanted.
pub(crate) fn force_over<Rt, K, T, L, O>(
    rt: &Rt,
    alloc: Global,
    keeper: &mut K,
    tree: &mut T,
    links: Many<L>,
    out: &mut O,
    items: &[Item],
    setup: Setup,
    report: bool,
) -> LinkedEnd<L>
where
    Rt: Threads + Wait + Sync,
    K: Keeper,
    T: Tree,
    L: Link + Drop + Send,
    O: Sink,
    requires items { All IsItem items.now }
    requires links { (1 ≤ length links) × (length links ≤ 64) }
    requires setup { (setup.retries ≤ 16) × (1 ≤ setup.copies) × (setup.copies ≤ 4) }
    ensures exact { K.tells → T.tells → AllByRecursion L.tells (asked_for (by_function L.outcome) setup.budget (K.store keeper.old) (wanted_of (T.files tree.old) items.now)) →
        EndsOver (wanted_forced_with (by_function L.outcome) (linked_text report result.report) setup.budget items.now (K.store keeper.old) (wanted_of (T.files tree.old) items.now))
        (around (kept K.store K.writes) (filed_in T.files T.changes) O.written keeper.old keeper.new tree.old tree.new out.old out.new) result.end }
    ensures some { K.tells → T.tells → EndsSome L.tells L.outcome (λ outcomes. asked_for outcomes setup.budget (K.store keeper.old) (wanted_of (T.files tree.old) items.now))
        (λ outcomes. wanted_forced_with outcomes (linked_text report result.report) setup.budget items.now (K.store keeper.old) (wanted_of (T.files tree.old) items.now))
        (around (kept K.store K.writes) (filed_in T.files T.changes) O.written keeper.old keeper.new tree.old tree.new out.old out.new) result.end }
    ensures cause { EndOverCause setup.retries (around K.faults T.faults O.faults keeper.old keeper.new tree.old tree.new out.old out.new) result.end }
    ensures keeps { KeepsLinks L.tells (length links) setup.retries setup.copies (marks_of L.jobs L.faults links) (marks_of L.jobs L.faults result.links) result.report result.end }
    ensures no_usage { result.end ≢ Err (Top TopFault.Usage) }
    ensures no_input { result.end ≢ Err (Top TopFault.InputFailed) }
{
    let refs = match wanted(alloc, tree, items, setup.retries) {
        Ok(refs) => refs,
        Err(fault) => return unstarted(alloc, links, TopFault::from(fault)),
    };
    let wanted = report;
    let PoolEnd { end, report, links } = force_with_links(rt, alloc, keeper, refs, setup, links);
    let end = conclude(
        alloc,
        keeper,
        tree,
        out,
        end,
        items,
        setup.retries,
        wanted,
        &report,
    );
    LinkedEnd { end, report, links }
}
