//! Inputs of thunks.

ghost use Rattle.std.specs.Prelude.{◌≡◌, ◌++◌, List, [], IfOk, IfSome, OnOk, All, is_some, map};
ghost use Rattle.std.specs.List.{AllByRecursion};
ghost use Rattle.thunk_codec.specs.Reference.{IsRef};
ghost use Rattle.blob_store.specs.Keeping.{kept};
ghost use Rattle.file_tree.specs.Files.{Filed, filed_in};
ghost use Rattle.build_plan.specs.Applying.{sides};
ghost use Rattle.build_plan.specs.Doing.{each};
ghost use Rattle.build_plan.specs.Symbolic.{input_ref, ref_of_item};
ghost use Rattle.build_plan.specs.Way.{file_input, item_at, optional_input};
ghost use Rattle.build_plan.specs.StepContracts.{AreCompleted, Fares, FaresKeeper, Goes, IsItem, between, file_ref, grown, more_refs, place_if, read_refs, source_ref};
ghost use Rattle.build_plan.specs.declared.gathered.Gathered.{Gathered};
ghost use Rattle.build_plan.specs.declared.gathered.Gathered.TheVariants.{Plain};

use crate::gathered::Gathered;
use crate::plan::Source;
use crate::reading::{read_if_there, read_item};
use crate::stored::{store_item, store_value};
use blob_store::Keeper;
use file_tree::{ApplyFault, Tree};
use object_name::{Many, TryCopy};
use std::alloc::{AllocError, Global};
use thunk_codec::{Path, Ref};

/// Some files as inputs, each under its own path.
pub(crate) fn file_inputs(alloc: Global, paths: &[Path]) -> Result<Many<(Path, Source)>, AllocError>
    ensures { IfOk result (λ inputs. inputs ≡ map file_input paths.now) }
{
    let mut inputs = Many::new(alloc);
    'paths: for path in paths {
        inputs.push((path.copy(alloc)?, Source::File(path.copy(alloc)?)))?;
    }
    Ok(inputs)
}

/// Reads the file at a path, stores its bytes if it isn't a placeholder, and gives its reference.
pub(crate) fn file_ref<T: Tree, K: Keeper>(
    alloc: Global,
    path: &Path,
    tree: &mut T,
    keeper: &mut K,
    retries: u32,
) -> Result<Ref, ApplyFault>
    ensures goes { K.tells → T.tells → Goes (file_ref path.now) 0
        (sides (kept K.store K.writes) (filed_in T.files T.changes) keeper.old keeper.new tree.old tree.new) result }
    ensures reference { IfOk result IsRef }
    ensures fares { Fares K.tells T.tells K.calls K.faults T.calls T.faults retries keeper.old keeper.new tree.old tree.new result }
{
    let item = read_item(alloc, path, tree, retries)?;
    store_item(alloc, &item, keeper, retries)
}

/// The reference of what the step at a place gathered, whose bytes are stored. Where there is none, it is that of no bytes.
fn made_ref<K: Keeper>(
    alloc: Global,
    items: &[Gathered],
    place: u32,
    keeper: &mut K,
    retries: u32,
) -> Result<Ref, ApplyFault>
    requires { All IsItem items.now }
    ensures goes { K.tells → (files : Filed) → Goes (ref_of_item (item_at (Plain []) items.now place)) 0 (between (kept K.store K.writes keeper.old) (kept K.store K.writes keeper.new) files files) result }
    ensures reference { IfOk result IsRef }
    ensures fares { FaresKeeper K.tells K.calls K.faults retries keeper.old keeper.new result }
{
    match items.get(place as usize) {
        Some(item) => store_item(alloc, item, keeper, retries),
        None => store_value(alloc, &[], keeper, retries),
    }
}

/// The reference of an input: it is read, or gathered already, and its bytes are stored.
fn source_ref<T: Tree, K: Keeper>(
    alloc: Global,
    items: &[Gathered],
    source: &Source,
    tree: &mut T,
    keeper: &mut K,
    retries: u32,
) -> Result<Ref, ApplyFault>
    requires { All IsItem items.now }
    ensures goes { K.tells → T.tells → Goes (source_ref items.now source.now) 0
        (sides (kept K.store K.writes) (filed_in T.files T.changes) keeper.old keeper.new tree.old tree.new) result }
    ensures reference { IfOk result IsRef }
    ensures fares { Fares K.tells T.tells K.calls K.faults T.calls T.faults retries keeper.old keeper.new tree.old tree.new result }
{
    match source {
        Source::File(path) => file_ref(alloc, path, tree, keeper, retries),
        Source::Made(place) => made_ref(alloc, items, *place, keeper, retries),
    }
}

/// The inputs of a thunk with their references, in order.
pub(crate) fn input_refs<T: Tree, K: Keeper>(
    alloc: Global,
    items: &[Gathered],
    inputs: &[(Path, Source)],
    tree: &mut T,
    keeper: &mut K,
    retries: u32,
) -> Result<Many<(Path, Ref)>, ApplyFault>
    requires { All IsItem items.now }
    ensures goes { K.tells → T.tells → Goes (each (input_ref items.now) inputs.now) 0
        (sides (kept K.store K.writes) (filed_in T.files T.changes) keeper.old keeper.new tree.old tree.new) result }
    ensures paths { IfOk result (λ refs. map (λ input. input.0) refs ≡ map (λ input. input.0) inputs.now) }
    ensures references { IfOk result (λ refs. AllByRecursion IsRef (map (λ input. input.1) refs)) }
    ensures fares { Fares K.tells T.tells K.calls K.faults T.calls T.faults retries keeper.old keeper.new tree.old tree.new result }
{
    let mut refs = Many::new(alloc);
    'inputs: for (path, source) in inputs {
        let reference = source_ref(alloc, items, source, tree, keeper, retries)?;
        refs.push((path.copy(alloc)?, reference))?;
    }
    Ok(refs)
}

/// Appends an input that was read, if it was there.
fn add_read<K: Keeper>(
    alloc: Global,
    place: &Path,
    item: Option<Gathered>,
    refs: &mut Many<(Path, Ref)>,
    keeper: &mut K,
    retries: u32,
) -> Result<(), ApplyFault>
    requires item { IfSome item IsItem }
    requires references { AllByRecursion IsRef (map (λ input. input.1) refs.old) }
    ensures goes { K.tells → (files : Filed) → Goes (read_refs refs.old place.now item) 0 (between (kept K.store K.writes keeper.old) (kept K.store K.writes keeper.new) files files) (grown result refs.new) }
    ensures paths { OnOk result (map (λ input. input.0) refs.new ≡ map (λ input. input.0) refs.old ++ place_if place.now (is_some item)) }
    ensures references { OnOk result (AllByRecursion IsRef (map (λ input. input.1) refs.new)) }
    ensures fares { FaresKeeper K.tells K.calls K.faults retries keeper.old keeper.new result }
{
    let Some(item) = item else {
        return Ok(());
    };
    let reference = store_item(alloc, &item, keeper, retries)?;
    refs.push((place.copy(alloc)?, reference))?;
    Ok(())
}

/// One input more, if its file is there.
fn add_optional<T: Tree, K: Keeper>(
    alloc: Global,
    optional: &Option<(Path, Path)>,
    refs: &mut Many<(Path, Ref)>,
    tree: &mut T,
    keeper: &mut K,
    retries: u32,
) -> Result<(), ApplyFault>
    requires { AllByRecursion IsRef (map (λ input. input.1) refs.old) }
    ensures goes { K.tells → T.tells → (items : List Gathered) → Goes (more_refs items refs.old (optional_input (T.files tree.old) optional.now)) 0
        (sides (kept K.store K.writes) (filed_in T.files T.changes) keeper.old keeper.new tree.old tree.new) (grown result refs.new) }
    ensures paths { OnOk result (AreCompleted (map (λ input. input.0) refs.old) optional.now (map (λ input. input.0) refs.new)) }
    ensures references { OnOk result (AllByRecursion IsRef (map (λ input. input.1) refs.new)) }
    ensures fares { Fares K.tells T.tells K.calls K.faults T.calls T.faults retries keeper.old keeper.new tree.old tree.new result }
{
    let Some((place, path)) = optional else {
        return Ok(());
    };
    let item = read_if_there(alloc, path, tree, retries)?;
    add_read(alloc, place, item, refs, keeper, retries)
}

/// The inputs of a thunk with their references, in order, and behind them one more, if its file is there.
pub(crate) fn completed_refs<T: Tree, K: Keeper>(
    alloc: Global,
    items: &[Gathered],
    inputs: &[(Path, Source)],
    optional: &Option<(Path, Path)>,
    tree: &mut T,
    keeper: &mut K,
    retries: u32,
) -> Result<Many<(Path, Ref)>, ApplyFault>
    requires { All IsItem items.now }
    ensures goes { K.tells → T.tells → Goes (each (input_ref items.now) (inputs.now ++ optional_input (T.files tree.old) optional.now)) 0
        (sides (kept K.store K.writes) (filed_in T.files T.changes) keeper.old keeper.new tree.old tree.new) result }
    ensures paths { IfOk result (λ refs. AreCompleted (map (λ input. input.0) inputs.now) optional.now (map (λ input. input.0) refs)) }
    ensures references { IfOk result (λ refs. AllByRecursion IsRef (map (λ input. input.1) refs)) }
    ensures fares { Fares K.tells T.tells K.calls K.faults T.calls T.faults retries keeper.old keeper.new tree.old tree.new result }
{
    let mut refs = input_refs(alloc, items, inputs, tree, keeper, retries)?;
    add_optional(alloc, optional, &mut refs, tree, keeper, retries)?;
    Ok(refs)
}
