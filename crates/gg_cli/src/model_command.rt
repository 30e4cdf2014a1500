//! The command `model`: the work of a command, as thunks.

ghost use Rattle.std.specs.Prelude.{◌≡◌, ◌≢◌, ℕ, List, Option, Ok, Err};
ghost use Rattle.build_plan.specs.Applying.{sides};
ghost use Rattle.build_plan.specs.Fitting.{IsFitPlan};
ghost use Rattle.blob_store.specs.Keeping.{kept};
ghost use Rattle.file_tree.specs.Files.{filed_in};
ghost use Rattle.object_name.specs.Causes.{TriesAtMost};
ghost use Rattle.gg_cli.specs.Answer.{modelled, plan_modelled};
ghost use Rattle.gg_cli.specs.LowerFaults.{IsPlanFault};
ghost use Rattle.gg_cli.specs.StepContracts.{Ends, EndCause, answered, file_faults_of, kept_faults_of, work_counts, work_made};

use crate::fault::TopFault;
use crate::work_fault::{not_modelled, work_fault};
use blob_store::Keeper;
use build_plan::{Plan, apply_plan};
use build_script::{own_word, plan_command, word_at};
use file_tree::{PlanFault, Tree};
use object_name::Bytes;
use std::alloc::Global;

/// The fault of words that have no plan.
fn plan_fault(alloc: Global, words: &[Bytes], fault: PlanFault) -> TopFault
    ensures is_fault { IsPlanFault words.now fault result }
    ensures no_usage { result ≢ TopFault.Usage }
    ensures no_input { result ≢ TopFault.InputFailed }
{
    match fault {
        PlanFault::Refused { at, reason } => not_modelled(alloc, word_at(words, at), reason),
        PlanFault::Memory => TopFault::Memory,
    }
}

/// Applies the plan of a command.
fn apply<K: Keeper, T: Tree>(
    alloc: Global,
    keeper: &mut K,
    tree: &mut T,
    words: &[Bytes],
    plan: &Plan,
    retries: u32,
) -> Result<(), TopFault>
    requires { IsFitPlan plan.now }
    ensures ends { K.tells → T.tells → (told : Option (List ℕ)) → Ends (plan_modelled words.now (Ok plan.now) (K.store keeper.old) (T.files tree.old))
        (work_made told (sides (kept K.store K.writes) (filed_in T.files T.changes) keeper.old keeper.new tree.old tree.new)) result }
    ensures cause { EndCause retries (work_counts (K.faults keeper.old) (K.faults keeper.new) (T.faults tree.old) (T.faults tree.new)) result }
    ensures kept_tries { K.tells → TriesAtMost retries K.calls K.faults keeper.old keeper.new (answered kept_faults_of result) }
    ensures file_tries { T.tells → TriesAtMost retries T.calls T.faults tree.old tree.new (answered file_faults_of result) }
    ensures no_usage { result ≢ Err TopFault.Usage }
    ensures no_input { result ≢ Err TopFault.InputFailed }
{
    match apply_plan(alloc, plan, tree, keeper, retries) {
        Ok(_) => Ok(()),
        Err(fault) => Err(work_fault(alloc, own_word(words), fault)),
    }
}

/// Does `model`: the plan of the command's words is applied.
pub(crate) fn model<K: Keeper, T: Tree>(
    alloc: Global,
    keeper: &mut K,
    tree: &mut T,
    words: &[Bytes],
    retries: u32,
) -> Result<(), TopFault>
    ensures ends { K.tells → T.tells → (told : Option (List ℕ)) → Ends (modelled words.now (K.store keeper.old) (T.files tree.old))
        (work_made told (sides (kept K.store K.writes) (filed_in T.files T.changes) keeper.old keeper.new tree.old tree.new)) result }
    ensures cause { EndCause retries (work_counts (K.faults keeper.old) (K.faults keeper.new) (T.faults tree.old) (T.faults tree.new)) result }
    ensures kept_tries { K.tells → TriesAtMost retries K.calls K.faults keeper.old keeper.new (answered kept_faults_of result) }
    ensures file_tries { T.tells → TriesAtMost retries T.calls T.faults tree.old tree.new (answered file_faults_of result) }
    ensures no_usage { result ≢ Err TopFault.Usage }
    ensures no_input { result ≢ Err TopFault.InputFailed }
{
    match plan_command(alloc, words) {
        Ok(plan) => apply(alloc, keeper, tree, words, &plan, retries),
        Err(fault) => Err(plan_fault(alloc, words, fault)),
    }
}
