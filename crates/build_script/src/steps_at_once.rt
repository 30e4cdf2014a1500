//! Steps of plans, done at once.

ghost use Rattle.std.specs.Prelude.{◌≡◌, [], OnOk, OnErr, List, ℕ};
ghost use Rattle.std.specs.List.{AllByRecursion};
ghost use Rattle.build_plan.specs.Way.{gathered, scanned_or, taken};
ghost use Rattle.build_plan.specs.declared.plan.Step.TheVariants.{Run, Scan};
ghost use Rattle.include_scan.specs.Scanning.{scanned_paths};
ghost use Rattle.build_script.specs.WholeTree.{IsCpp, ScansForCpp};
ghost use Rattle.build_script.specs.WorkAtOnce.{Finds, Goes, Reads, by_cards, failures};

use crate::file_bytes::{read_bytes, read_first, take_bytes};
use crate::run_fault::RunFault;
use crate::tool_inputs::{completed_inputs, file_inputs};
use crate::tool_runs::run_tool;
use build_plan::{Scanning, Stage, Step};
use file_tree::Tree;
use include_scan::scan;
use object_name::{Bytes, Many};
use std::alloc::Global;
use thunk_codec::Path;

/// Runs the tool of a stage.
fn run_stage<T: Tree>(
    alloc: Global,
    items: &[Bytes],
    stage: &Stage,
    tree: &mut T,
    retries: u32,
) -> Result<Bytes, RunFault>
    ensures goes { T.tells → Goes (taken by_cards items.now (Run stage.now)) (T.files tree.old) result }
    ensures reads { Reads T.tells T.files T.changes T.calls T.faults retries tree.old tree.new (failures result) }
{
    let inputs = completed_inputs(
        alloc,
        items,
        stage.inputs.as_slice(),
        &stage.optional,
        tree,
        retries,
    )?;
    run_tool(
        alloc,
        stage.tool.as_slice(),
        &stage.args,
        inputs,
        &stage.target,
    )
}

/// The files of a scanned source.
fn scanned<T: Tree>(
    alloc: Global,
    scanning: &Scanning,
    tree: &mut T,
    retries: u32,
) -> Result<Many<Path>, RunFault>
    ensures exact { T.tells → Finds (scanned_or (scanned_paths (T.files tree.old) scanning.now.folders scanning.now.source)) result }
    ensures reads { Reads T.tells T.files T.changes T.calls T.faults retries tree.old tree.new (failures result) }
{
    let folders = scanning.folders.as_slice();
    let paths = scan(alloc, tree, &scanning.source, folders, retries)?;
    Ok(paths)
}

/// Scans a source, and runs the tool over the scanned files: the preprocessor reads no others.
fn run_scanning<T: Tree>(
    alloc: Global,
    scanning: &Scanning,
    tree: &mut T,
    retries: u32,
) -> Result<Bytes, RunFault>
    requires { IsCpp scanning.now }
    ensures goes { T.tells → (items : List (List ℕ)) → Goes (taken by_cards items (Scan scanning.now)) (T.files tree.old) result }
    ensures reads { Reads T.tells T.files T.changes T.calls T.faults retries tree.old tree.new (failures result) }
{
    let paths = scanned(alloc, scanning, tree, retries)?;
    let inputs = file_inputs(alloc, paths.as_slice(), tree, retries)?;
    run_tool(
        alloc,
        scanning.tool.as_slice(),
        &scanning.args,
        inputs,
        &scanning.target,
    )
}

/// What a step gathers.
fn take_step<T: Tree>(
    alloc: Global,
    items: &[Bytes],
    step: &Step,
    tree: &mut T,
    retries: u32,
) -> Result<Bytes, RunFault>
    requires { ScansForCpp step.now }
    ensures goes { T.tells → Goes (taken by_cards items.now step.now) (T.files tree.old) result }
    ensures reads { Reads T.tells T.files T.changes T.calls T.faults retries tree.old tree.new (failures result) }
{
    match step {
        Step::Read(path) => read_bytes(alloc, path, tree, retries),
        Step::Take(path) => take_bytes(alloc, path, tree, retries),
        Step::Find { missing, places } => {
            read_first(alloc, missing, places.as_slice(), tree, retries)
        }
        Step::Run(stage) => run_stage(alloc, items, stage, tree, retries),
        Step::Scan(scanning) => run_scanning(alloc, scanning, tree, retries),
    }
}

/// What some steps gather, one after another.
pub(crate) fn take_steps<T: Tree>(
    alloc: Global,
    steps: &[Step],
    tree: &mut T,
    retries: u32,
) -> Result<Many<Bytes>, RunFault>
    requires { AllByRecursion ScansForCpp steps.now }
    ensures goes { T.tells → Goes (gathered by_cards steps.now []) (T.files tree.old) result }
    ensures reads { Reads T.tells T.files T.changes T.calls T.faults retries tree.old tree.new (failures result) }
{
    let mut items = Many::new(alloc);
    'steps: for step in steps {
        let item = take_step(alloc, items.as_slice(), step, tree, retries)?;
        items.push(item)?;
    }
    Ok(items)
}
