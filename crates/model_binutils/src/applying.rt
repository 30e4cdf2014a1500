//! Plans of commands, applied.

ghost use Rattle.std.specs.Prelude.{◌≤◌};
ghost use Rattle.blob_store.specs.Keeping.{kept};
ghost use Rattle.file_tree.specs.Files.{filed_in};
ghost use Rattle.object_name.specs.Causes.{TriesAtMost};
ghost use Rattle.build_plan.specs.Symbolic.{applied, begun};
ghost use Rattle.build_plan.specs.Applying.{ApplyCause, ClashShows, Does, file_failures, kept_failures, sides};
ghost use Rattle.model_binutils.specs.PlanOf.{IsPlanned, build_of};

use crate::bin_plan::BinPlan;
use crate::building::build_of;
use blob_store::Keeper;
use build_plan::apply_plan;
use file_tree::{ApplyFault, Tree};
use std::alloc::Global;

/// Does what a command asks for without running its tools: stores the thunks of its stages, writes
/// placeholders, and moves and removes files, as `apply_plan` does. Answers the number of thunks made;
/// a number that would pass 4,294,967,295 is that.
pub fn apply<T: Tree, K: Keeper>(
    alloc: Global,
    plan: &BinPlan,
    tree: &mut T,
    keeper: &mut K,
    retries: u32,
) -> Result<u32, ApplyFault>
    requires { IsPlanned plan.now }
    ensures exact { K.tells → T.tells → Does (applied (build_of plan.now) (begun (K.store keeper.old) (T.files tree.old)))
        (sides (kept K.store K.writes) (filed_in T.files T.changes) keeper.old keeper.new tree.old tree.new) result }
    ensures clash { ClashShows result }
    ensures kept_later { K.faults keeper.old ≤ K.faults keeper.new }
    ensures files_later { T.faults tree.old ≤ T.faults tree.new }
    ensures cause { ApplyCause retries (K.faults keeper.old) (K.faults keeper.new) (T.faults tree.old) (T.faults tree.new) result }
    ensures kept_tries { K.tells → TriesAtMost retries K.calls K.faults keeper.old keeper.new (kept_failures result) }
    ensures file_tries { T.tells → TriesAtMost retries T.calls T.faults tree.old tree.new (file_failures result) }
{
    let made = build_of(alloc, plan)?;
    apply_plan(alloc, &made, tree, keeper, retries)
}
