//! Plans applied.

ghost use Rattle.std.specs.Prelude.{◌≤◌};
ghost use Rattle.blob_store.specs.Keeping.{kept};
ghost use Rattle.file_tree.specs.Files.{filed_in};
ghost use Rattle.object_name.specs.Causes.{TriesAtMost};
ghost use Rattle.build_plan.specs.Symbolic.{applied, begun};
ghost use Rattle.build_plan.specs.Fitting.{IsFitPlan};
ghost use Rattle.build_plan.specs.Applying.{ApplyCause, ClashShows, Does, file_failures, kept_failures, sides};

use crate::plan::Plan;
use crate::steps::take_steps;
use crate::targets::change_targets;
use blob_store::Keeper;
use file_tree::{ApplyFault, Tree};
use object_name::Many;
use std::alloc::Global;

/// Does a plan without running its tools: stores the thunks of its stages, each after its card and the bytes among its inputs, and
/// writes placeholders. Answers the number of thunks made; a number that would pass 4,294,967,295 is that. A failed call of the keeper or
/// the tree is tried again, `retries` times at most. An object that is held isn't stored again, and no file is changed before all
/// objects are stored.
pub fn apply_plan<T: Tree, K: Keeper>(
    alloc: Global,
    plan: &Plan,
    tree: &mut T,
    keeper: &mut K,
    retries: u32,
) -> Result<u32, ApplyFault>
    requires { IsFitPlan plan.now }
    ensures exact { K.tells → T.tells → Does (applied plan.now (begun (K.store keeper.old) (T.files tree.old)))
        (sides (kept K.store K.writes) (filed_in T.files T.changes) keeper.old keeper.new tree.old tree.new) result }
    ensures clash { ClashShows result }
    ensures kept_later { K.faults keeper.old ≤ K.faults keeper.new }
    ensures files_later { T.faults tree.old ≤ T.faults tree.new }
    ensures cause { ApplyCause retries (K.faults keeper.old) (K.faults keeper.new) (T.faults tree.old) (T.faults tree.new) result }
    ensures kept_tries { K.tells → TriesAtMost retries K.calls K.faults keeper.old keeper.new (kept_failures result) }
    ensures file_tries { T.tells → TriesAtMost retries T.calls T.faults tree.old tree.new (file_failures result) }
{
    let mut items = Many::new(alloc);
    let thunks = take_steps(
        alloc,
        plan.steps.as_slice(),
        &mut items,
        tree,
        keeper,
        retries,
    )?;
    change_targets(
        alloc,
        items.as_slice(),
        plan.targets.as_slice(),
        tree,
        retries,
    )?;
    Ok(thunks)
}
