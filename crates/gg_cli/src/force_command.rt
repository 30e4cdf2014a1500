//! The command `force`: values of wanted items, from the store to the files and the output.

ghost use Rattle.std.specs.Prelude.{◌≡◌, ◌≢◌, ◌≤◌, ℕ, All, Err};
ghost use Rattle.thunk_codec.specs.Reference.{IsRef};
ghost use Rattle.blob_store.specs.Keeping.{kept};
ghost use Rattle.file_tree.specs.Files.{filed_in};
ghost use Rattle.object_name.specs.Causes.{TriesAtMost};
ghost use Rattle.file_tree.specs.Wanted.{IsItem, wanted_of};
ghost use Rattle.need_eval.specs.Eval.{start};
ghost use Rattle.need_eval.specs.Evaluation.{values_of, by_function};
ghost use Rattle.need_eval.specs.MetObjects.{AreHeld};
ghost use Rattle.sandbox_run.specs.Cards.{card_outcome};
ghost use Rattle.gg_cli.specs.Answer.{wanted_forced};
ghost use Rattle.gg_cli.specs.Comes.{around};
ghost use Rattle.gg_cli.specs.LowerFaults.{IsFaultOf};
ghost use Rattle.gg_cli.specs.StepContracts.{Ends, Values, HandsOut, EndCause, answered, file_faults_of, kept_counts, kept_faults_of};

use crate::fault::{TopFault, output_fault};
use crate::value_files::write_files;
use crate::value_lines::print_values;
use blob_store::Keeper;
use file_tree::{Item, Tree, wanted};
use need_eval::{EvalFault, evaluate};
use object_name::{Many, Name, Sink};
use sandbox_run::Cards;
use std::alloc::Global;
use thunk_codec::Ref;

/// The fault that an evaluation ended with.
pub(crate) fn fault_of(fault: &EvalFault) -> TopFault
    requires { fault.now ≢ EvalFault.RunFailed }
    ensures is_fault { IsFaultOf fault.now result }
    ensures no_usage { result ≢ TopFault.Usage }
    ensures no_input { result ≢ TopFault.InputFailed }
{
    match fault {
        EvalFault::Refused(refusal) => TopFault::Refused(*refusal),
        EvalFault::Clash { name, .. } => TopFault::Clash(*name),
        EvalFault::StoreFailed => TopFault::StoreFailed,
        EvalFault::RunFailed => unreachable!(),
        EvalFault::Memory => TopFault::Memory,
    }
}

/// The values of references, in order.
fn find_values<K: Keeper>(
    alloc: Global,
    keeper: &mut K,
    refs: Many<Ref>,
    budget: u32,
    retries: u32,
) -> Result<Many<Name>, TopFault>
    requires { All IsRef refs }
    ensures values { K.tells → Values (values_of (by_function card_outcome) budget refs (start (K.store keeper.old))) (kept K.store K.writes keeper.old) (kept K.store K.writes keeper.new) result }
    ensures later { K.faults keeper.old ≤ K.faults keeper.new }
    ensures cause { EndCause retries (kept_counts (K.faults keeper.old) (K.faults keeper.new)) result }
    ensures kept_tries { K.tells → TriesAtMost retries K.calls K.faults keeper.old keeper.new (answered kept_faults_of result) }
    ensures no_usage { result ≢ Err TopFault.Usage }
    ensures no_input { result ≢ Err TopFault.InputFailed }
{
    match evaluate(alloc, keeper, refs, budget, retries, &mut Cards) {
        Ok(values) => Ok(values.names),
        Err(fault) => Err(fault_of(&fault)),
    }
}

/// Writes the values to the files that wanted them, and then prints a line for each.
fn hand_out<K: Keeper, T: Tree, O: Sink>(
    alloc: Global,
    keeper: &mut K,
    tree: &mut T,
    out: &mut O,
    names: &[Name],
    items: &[Item],
    retries: u32,
) -> Result<(), TopFault>
    requires { K.tells → AreHeld (K.store keeper.old) names.now }
    ensures ends { K.tells → T.tells → HandsOut names.now items.now (kept K.store K.writes keeper.old) (kept K.store K.writes keeper.new) (filed_in T.files T.changes tree.old) (filed_in T.files T.changes tree.new) (O.written out.old) (O.written out.new) result }
    ensures cause { EndCause retries (around K.faults T.faults O.faults keeper.old keeper.new tree.old tree.new out.old out.new) result }
    ensures kept_tries { K.tells → TriesAtMost retries K.calls K.faults keeper.old keeper.new (answered kept_faults_of result) }
    ensures file_tries { T.tells → TriesAtMost retries T.calls T.faults tree.old tree.new (answered file_faults_of result) }
    ensures kept_later { K.faults keeper.old ≤ K.faults keeper.new }
    ensures files_later { T.faults tree.old ≤ T.faults tree.new }
    ensures no_usage { result ≢ Err TopFault.Usage }
    ensures no_input { result ≢ Err TopFault.InputFailed }
{
    write_files(alloc, keeper, tree, names, items, retries)?;
    match print_values(alloc, out, names, items) {
        Ok(()) => Ok(()),
        Err(trouble) => Err(output_fault(trouble)),
    }
}

/// Does `force`: the references of the items, their values, the files of the items, and a line for each value.
pub(crate) fn force<K: Keeper, T: Tree, O: Sink>(
    alloc: Global,
    keeper: &mut K,
    tree: &mut T,
    out: &mut O,
    items: &[Item],
    budget: u32,
    retries: u32,
) -> Result<(), TopFault>
    requires { All IsItem items.now }
    ensures ends { K.tells → T.tells → Ends (wanted_forced budget items.now (K.store keeper.old) (wanted_of (T.files tree.old) items.now))
        (around (kept K.store K.writes) (filed_in T.files T.changes) O.written keeper.old keeper.new tree.old tree.new out.old out.new) result }
    ensures cause { EndCause retries (around K.faults T.faults O.faults keeper.old keeper.new tree.old tree.new out.old out.new) result }
    ensures kept_tries { K.tells → TriesAtMost retries K.calls K.faults keeper.old keeper.new (answered kept_faults_of result) }
    ensures file_tries { T.tells → TriesAtMost retries T.calls T.faults tree.old tree.new (answered file_faults_of result) }
    ensures no_usage { result ≢ Err TopFault.Usage }
    ensures no_input { result ≢ Err TopFault.InputFailed }
{
    let refs = wanted(alloc, tree, items, retries)?;
    let names = find_values(alloc, keeper, refs, budget, retries)?;
    hand_out(alloc, keeper, tree, out, names.as_slice(), items, retries)
}
