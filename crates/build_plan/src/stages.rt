//! Stages: thunks of the runs of tools.

ghost use Rattle.std.specs.Prelude.{◌≡◌, ◌++◌, ◌≤◌, ℕ, List, [], IfOk, All, length, map, true};
ghost use Rattle.std.specs.List.{AllByRecursion};
ghost use Rattle.thunk_codec.specs.Fitting.{AreFit};
ghost use Rattle.thunk_codec.specs.Reference.{IsRef};
ghost use Rattle.blob_store.specs.Keeping.{kept};
ghost use Rattle.file_tree.specs.Files.{Files, Filed, filed_in};
ghost use Rattle.build_plan.specs.Applying.{sides};
ghost use Rattle.build_plan.specs.Fitting.{IsCardName, IsFitScanning};
ghost use Rattle.build_plan.specs.Symbolic.{one_output, symbolic, thunk_made};
ghost use Rattle.build_plan.specs.Way.{optional_input, scanned_or, taken};
ghost use Rattle.build_plan.specs.StepContracts.{Fares, FaresKeeper, Finds, Goes, IsItem, ReadsFiles, between, parts_with, stage_of, stage_output};
ghost use Rattle.build_plan.specs.declared.plan.Step.TheVariants.{Scan};
ghost use Rattle.include_scan.specs.Scanning.{max_files, scanned_paths};
ghost use Rattle.thunk_codec.specs.Thunk.{is_strictly_increasing};

use crate::faults::scan_fault;
use crate::gathered::Gathered;
use crate::inputs::{completed_refs, file_inputs};
use crate::job_paths::known_path;
use crate::plan::{Scanning, Source};
use crate::stored::{store_card, store_thunk};
use blob_store::Keeper;
use file_tree::{ApplyFault, Tree};
use include_scan::scan;
use object_name::{Bytes, Many};
use std::alloc::{AllocError, Global};
use thunk_codec::{Path, Ref, look_at_paths};

/// The name of the one output of a thunk of a plan.
const OUTPUT: &[u8] = b"out";

/// The one output of a thunk of a plan.
fn one_output(alloc: Global) -> Result<Many<Path>, AllocError>
    ensures { IfOk result (λ outputs. outputs ≡ one_output) }
{
    let mut outputs = Many::new(alloc);
    outputs.push(known_path(alloc, OUTPUT)?)?;
    Ok(outputs)
}

/// Stores the thunk of a stage, and gives its output.
fn store_stage<K: Keeper>(
    alloc: Global,
    function: Ref,
    args: &Many<Bytes>,
    inputs: Many<(Path, Ref)>,
    keeper: &mut K,
    retries: u32,
) -> Result<Gathered, ApplyFault>
    requires fits { AreFit args.now [] (map (λ input. input.0) inputs) one_output }
    requires function { IsRef function }
    requires inputs { AllByRecursion IsRef (map (λ input. input.1) inputs) }
    ensures goes { K.tells → (files : Filed) → Goes (stage_output (parts_with function args.now [] inputs one_output)) 1
        (between (kept K.store K.writes keeper.old) (kept K.store K.writes keeper.new) files files) result }
    ensures item { IfOk result IsItem }
    ensures fares { FaresKeeper K.tells K.calls K.faults retries keeper.old keeper.new result }
{
    let outputs = one_output(alloc)?;
    let envs = Many::new(alloc);
    let name = store_thunk(
        alloc, function, args, &envs, inputs, &outputs, keeper, retries,
    )?;
    Ok(Gathered::Output(name, 0))
}

/// Makes the thunk of a tool's run: its card, the bytes among its inputs and the thunk are stored. Its output stands for what the tool gives.
pub(crate) fn run_tool<T: Tree, K: Keeper>(
    alloc: Global,
    items: &[Gathered],
    tool: &[u8],
    args: &Many<Bytes>,
    inputs: &[(Path, Source)],
    optional: &Option<(Path, Path)>,
    tree: &mut T,
    keeper: &mut K,
    retries: u32,
) -> Result<Gathered, ApplyFault>
    requires items { All IsItem items.now }
    requires card { IsCardName tool.now }
    requires fits { (files : Files) → AreFit args.now [] (map (λ input. input.0) (inputs.now ++ optional_input files optional.now)) one_output }
    ensures goes { K.tells → T.tells → (target : List ℕ) →
        Goes (thunk_made items.now (stage_of tool.now args.now (inputs.now ++ optional_input (T.files tree.old) optional.now) target)) 1
        (sides (kept K.store K.writes) (filed_in T.files T.changes) keeper.old keeper.new tree.old tree.new) result }
    ensures item { IfOk result IsItem }
    ensures fares { Fares K.tells T.tells K.calls K.faults T.calls T.faults retries keeper.old keeper.new tree.old tree.new result }
{
    let card = store_card(alloc, tool, keeper, retries)?;
    let refs = completed_refs(alloc, items, inputs, optional, tree, keeper, retries)?;
    store_stage(alloc, Ref::Value(card), args, refs, keeper, retries)
}

/// The files of a scanned source.
fn scanned<T: Tree>(
    alloc: Global,
    scanning: &Scanning,
    tree: &mut T,
    retries: u32,
) -> Result<Many<Path>, ApplyFault>
    ensures exact { T.tells → Finds (scanned_or (scanned_paths (T.files tree.old) scanning.now.folders scanning.now.source)) result }
    ensures rising { IfOk result (λ paths. is_strictly_increasing paths ≡ true) }
    ensures limit { IfOk result (λ paths. length paths ≤ max_files) }
    ensures reads { ReadsFiles T.tells T.files T.changes T.calls T.faults retries tree.old tree.new result }
{
    match scan(
        alloc,
        tree,
        &scanning.source,
        scanning.folders.as_slice(),
        retries,
    ) {
        Ok(paths) => Ok(paths),
        Err(fault) => Err(scan_fault(fault)),
    }
}

/// Scans a source, and makes the thunk of a tool's run over the scanned files.
pub(crate) fn run_scanning<T: Tree, K: Keeper>(
    alloc: Global,
    scanning: &Scanning,
    tree: &mut T,
    keeper: &mut K,
    retries: u32,
) -> Result<Gathered, ApplyFault>
    requires { IsFitScanning scanning.now }
    ensures goes { K.tells → T.tells → (items : List Gathered) → Goes (taken symbolic items (Scan scanning.now)) 1
        (sides (kept K.store K.writes) (filed_in T.files T.changes) keeper.old keeper.new tree.old tree.new) result }
    ensures item { IfOk result IsItem }
    ensures fares { Fares K.tells T.tells K.calls K.faults T.calls T.faults retries keeper.old keeper.new tree.old tree.new result }
{
    let paths = scanned(alloc, scanning, tree, retries)?;
    look_at_paths(paths.as_slice());
    let inputs = file_inputs(alloc, paths.as_slice())?;
    run_tool(
        alloc,
        &[],
        scanning.tool.as_slice(),
        &scanning.args,
        inputs.as_slice(),
        &None,
        tree,
        keeper,
        retries,
    )
}
