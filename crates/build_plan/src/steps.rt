//! Steps of plans.

ghost use Rattle.std.specs.Prelude.{◌≡◌, ◌++◌, ◌+◌, ◌∷◌, [], IfOk, OnOk, All, min};
ghost use Rattle.std.specs.List.{AllByRecursion};
ghost use Rattle.blob_store.specs.Keeping.{kept};
ghost use Rattle.file_tree.specs.Files.{filed_in};
ghost use Rattle.build_plan.specs.Applying.{sides};
ghost use Rattle.build_plan.specs.Fitting.{IsFitStep};
ghost use Rattle.build_plan.specs.Symbolic.{symbolic};
ghost use Rattle.build_plan.specs.Way.{taken};
ghost use Rattle.build_plan.specs.StepContracts.{Fares, Goes, GoesSteps, IsItem, step_thunks};

use crate::gathered::Gathered;
use crate::plan::Step;
use crate::reading::{read_first, read_item, take_bytes};
use crate::stages::{run_scanning, run_tool};
use blob_store::Keeper;
use file_tree::{ApplyFault, Tree};
use object_name::Many;
use std::alloc::Global;

/// What a step gathers.
fn take_step<T: Tree, K: Keeper>(
    alloc: Global,
    items: &[Gathered],
    step: &Step,
    tree: &mut T,
    keeper: &mut K,
    retries: u32,
) -> Result<Gathered, ApplyFault>
    requires items { All IsItem items.now }
    requires fits { IsFitStep step.now }
    ensures goes { K.tells → T.tells → Goes (taken symbolic items.now step.now) (step_thunks step.now)
        (sides (kept K.store K.writes) (filed_in T.files T.changes) keeper.old keeper.new tree.old tree.new) result }
    ensures item { IfOk result IsItem }
    ensures fares { Fares K.tells T.tells K.calls K.faults T.calls T.faults retries keeper.old keeper.new tree.old tree.new result }
{
    match step {
        Step::Read(path) => read_item(alloc, path, tree, retries),
        Step::Take(path) => Ok(Gathered::Plain(take_bytes(alloc, path, tree, retries)?)),
        Step::Find { missing, places } => {
            read_first(alloc, missing, places.as_slice(), tree, retries)
        }
        Step::Run(stage) => run_tool(
            alloc,
            items,
            stage.tool.as_slice(),
            &stage.args,
            stage.inputs.as_slice(),
            &stage.optional,
            tree,
            keeper,
            retries,
        ),
        Step::Scan(scanning) => run_scanning(alloc, scanning, tree, keeper, retries),
    }
}

/// A number of thunks with those that a step makes. A number that would pass 4,294,967,295 is that.
fn counted(thunks: u32, step: &Step) -> u32
    ensures { result ≡ min (thunks + step_thunks step.now) 4294967295 }
{
    match step {
        Step::Run(_) => thunks.saturating_add(1),
        Step::Scan(_) => thunks.saturating_add(1),
        Step::Read(_) => thunks,
        Step::Take(_) => thunks,
        Step::Find { .. } => thunks,
    }
}

/// What some steps gather, one after another. Answers the number of thunks made.
pub(crate) fn take_steps<T: Tree, K: Keeper>(
    alloc: Global,
    steps: &[Step],
    items: &mut Many<Gathered>,
    tree: &mut T,
    keeper: &mut K,
    retries: u32,
) -> Result<u32, ApplyFault>
    requires none { items.old ≡ [] }
    requires fits { AllByRecursion IsFitStep steps.now }
    ensures goes { K.tells → T.tells → GoesSteps steps.now items.new
        (sides (kept K.store K.writes) (filed_in T.files T.changes) keeper.old keeper.new tree.old tree.new) result }
    ensures items { OnOk result (All IsItem items.new) }
    ensures fares { Fares K.tells T.tells K.calls K.faults T.calls T.faults retries keeper.old keeper.new tree.old tree.new result }
{
    let mut thunks = 0;
    'steps: for step in steps {
        let item = take_step(alloc, items.as_slice(), step, tree, keeper, retries)?;
        items.push(item)?;
        thunks = counted(thunks, step);
    }
    Ok(thunks)
}
