//! Plans done at once.

ghost use Rattle.std.specs.Prelude.{◌≡◌, ◌∷◌, [], map};
ghost use Rattle.std.specs.List.{AllByRecursion};
ghost use Rattle.file_tree.specs.Files.{filed_in};
ghost use Rattle.file_tree.specs.declared.change.Change.TheVariants.{Written, Removed};
ghost use Rattle.build_plan.specs.Way.{change_of};
ghost use Rattle.build_script.specs.WholeTree.{ScansForCpp};
ghost use Rattle.build_script.specs.WorkAtOnce.{Changes, Fares, PlanGoes, by_cards, failures};

use crate::run_fault::RunFault;
use crate::steps_at_once::take_steps;
use crate::tool_inputs::item_at;
use build_plan::{Plan, Target};
use file_tree::{Tree, remove_again, write_again};
use object_name::Bytes;
use std::alloc::Global;
use thunk_codec::Path;

/// Writes some bytes to the file at a path.
fn write_file<T: Tree>(
    path: &Path,
    bytes: &[u8],
    tree: &mut T,
    retries: u32,
) -> Result<(), RunFault>
    ensures changes { T.tells → Changes (Written path.now bytes.now ∷ []) (filed_in T.files T.changes tree.old) (filed_in T.files T.changes tree.new) result }
    ensures fares { Fares T.tells T.calls T.faults retries tree.old tree.new (failures result) }
{
    write_again(tree, path, bytes, retries)?;
    Ok(())
}

/// Removes the file at a path, if there is one.
fn remove_file<T: Tree>(path: &Path, tree: &mut T, retries: u32) -> Result<(), RunFault>
    ensures changes { T.tells → Changes (Removed path.now ∷ []) (filed_in T.files T.changes tree.old) (filed_in T.files T.changes tree.new) result }
    ensures fares { Fares T.tells T.calls T.faults retries tree.old tree.new (failures result) }
{
    remove_again(tree, path, retries)?;
    Ok(())
}

/// Makes the change of a target.
fn change_target<T: Tree>(
    items: &[Bytes],
    target: &Target,
    tree: &mut T,
    retries: u32,
) -> Result<(), RunFault>
    ensures changes { T.tells → Changes (change_of by_cards items.now target.now ∷ []) (filed_in T.files T.changes tree.old) (filed_in T.files T.changes tree.new) result }
    ensures fares { Fares T.tells T.calls T.faults retries tree.old tree.new (failures result) }
{
    match target {
        Target::Keep { path, step } => write_file(path, item_at(items, *step), tree, retries),
        Target::Drop(path) => remove_file(path, tree, retries),
    }
}

/// Makes the changes of some targets, in order.
fn change_targets<T: Tree>(
    items: &[Bytes],
    targets: &[Target],
    tree: &mut T,
    retries: u32,
) -> Result<(), RunFault>
    ensures changes { T.tells → Changes (map (change_of by_cards items.now) targets.now) (filed_in T.files T.changes tree.old) (filed_in T.files T.changes tree.new) result }
    ensures fares { Fares T.tells T.calls T.faults retries tree.old tree.new (failures result) }
{
    'targets: for target in targets {
        change_target(items, target, tree, retries)?;
    }
    Ok(())
}

/// Does a plan by running its tools. No file is changed before all of its steps are done.
pub(crate) fn do_plan<T: Tree>(
    alloc: Global,
    plan: &Plan,
    tree: &mut T,
    retries: u32,
) -> Result<(), RunFault>
    requires { AllByRecursion ScansForCpp plan.now.steps }
    ensures goes { T.tells → PlanGoes plan.now (filed_in T.files T.changes tree.old) (filed_in T.files T.changes tree.new) result }
    ensures fares { Fares T.tells T.calls T.faults retries tree.old tree.new (failures result) }
{
    let items = take_steps(alloc, plan.steps.as_slice(), tree, retries)?;
    change_targets(items.as_slice(), plan.targets.as_slice(), tree, retries)
}
