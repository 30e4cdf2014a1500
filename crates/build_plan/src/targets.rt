//! Changes of files.

ghost use Rattle.std.specs.Prelude.{◌≤◌, ◌<◌, ◌^◌, ◌∷◌, [], ℕ, All, map, length};
ghost use Rattle.thunk_codec.specs.Placeholder.{placeholder_text};
ghost use Rattle.thunk_codec.specs.Reference.{IsRef};
ghost use Rattle.thunk_codec.specs.declared.reference.Ref.TheVariants.{Out};
ghost use Rattle.file_tree.specs.Files.{filed_in};
ghost use Rattle.file_tree.specs.declared.change.Change.TheVariants.{Written, Removed};
ghost use Rattle.build_plan.specs.Creating.{placeholders};
ghost use Rattle.build_plan.specs.Gathered.{item_bytes};
ghost use Rattle.build_plan.specs.Symbolic.{symbolic};
ghost use Rattle.build_plan.specs.Way.{change_of, item_at};
ghost use Rattle.build_plan.specs.StepContracts.{Changes, FaresFiles, IsItem};
ghost use Rattle.build_plan.specs.declared.gathered.Gathered.TheVariants.{Plain};

use crate::faults::tree_fault;
use crate::gathered::Gathered;
use crate::plan::Target;
use file_tree::{ApplyFault, Tree, remove_again, write_again};
use object_name::Name;
use std::alloc::Global;
use thunk_codec::{Path, write_placeholder};

/// Writes some bytes to the file at a path.
fn write_file<T: Tree>(
    path: &Path,
    bytes: &[u8],
    tree: &mut T,
    retries: u32,
) -> Result<(), ApplyFault>
    ensures changes { T.tells → Changes (Written path.now bytes.now ∷ []) (filed_in T.files T.changes tree.old) (filed_in T.files T.changes tree.new) result }
    ensures fares { FaresFiles T.tells T.calls T.faults retries tree.old tree.new result }
{
    match write_again(tree, path, bytes, retries) {
        Ok(()) => Ok(()),
        Err(trouble) => Err(tree_fault(trouble)),
    }
}

/// Removes the file at a path, if there is one.
fn remove_file<T: Tree>(path: &Path, tree: &mut T, retries: u32) -> Result<(), ApplyFault>
    ensures changes { T.tells → Changes (Removed path.now ∷ []) (filed_in T.files T.changes tree.old) (filed_in T.files T.changes tree.new) result }
    ensures fares { FaresFiles T.tells T.calls T.faults retries tree.old tree.new result }
{
    match remove_again(tree, path, retries) {
        Ok(()) => Ok(()),
        Err(trouble) => Err(tree_fault(trouble)),
    }
}

/// Writes the placeholder of an output of a thunk to the file at a path.
fn leave_placeholder<T: Tree>(
    alloc: Global,
    path: &Path,
    name: &Name,
    index: u32,
    tree: &mut T,
    retries: u32,
) -> Result<(), ApplyFault>
    requires { IsRef (Out name.now index) }
    ensures changes { T.tells → Changes (Written path.now (placeholder_text name.now index) ∷ []) (filed_in T.files T.changes tree.old) (filed_in T.files T.changes tree.new) result }
    ensures fares { FaresFiles T.tells T.calls T.faults retries tree.old tree.new result }
{
    let text = write_placeholder(alloc, name, index)?;
    write_file(path, text.as_slice(), tree, retries)
}

/// Writes what was gathered to the file at a path: the bytes, or a placeholder.
fn write_item<T: Tree>(
    alloc: Global,
    path: &Path,
    item: &Gathered,
    tree: &mut T,
    retries: u32,
) -> Result<(), ApplyFault>
    requires { IsItem item.now }
    ensures changes { T.tells → Changes (Written path.now (item_bytes item.now) ∷ []) (filed_in T.files T.changes tree.old) (filed_in T.files T.changes tree.new) result }
    ensures fares { FaresFiles T.tells T.calls T.faults retries tree.old tree.new result }
{
    match item {
        Gathered::Plain(bytes) => write_file(path, bytes.as_slice(), tree, retries),
        Gathered::Output(name, index) => {
            leave_placeholder(alloc, path, name, *index, tree, retries)
        }
    }
}

/// Writes what the step at a place gathered to the file at a path. Where there is none, the file gets no bytes.
fn write_made<T: Tree>(
    alloc: Global,
    path: &Path,
    items: &[Gathered],
    place: u32,
    tree: &mut T,
    retries: u32,
) -> Result<(), ApplyFault>
    requires { All IsItem items.now }
    ensures changes { T.tells → Changes (Written path.now (item_bytes (item_at (Plain []) items.now place)) ∷ []) (filed_in T.files T.changes tree.old) (filed_in T.files T.changes tree.new) result }
    ensures fares { FaresFiles T.tells T.calls T.faults retries tree.old tree.new result }
{
    match items.get(place as usize) {
        Some(item) => write_item(alloc, path, item, tree, retries),
        None => write_file(path, &[], tree, retries),
    }
}

/// Makes the change of a target.
fn change_target<T: Tree>(
    alloc: Global,
    items: &[Gathered],
    target: &Target,
    tree: &mut T,
    retries: u32,
) -> Result<(), ApplyFault>
    requires { All IsItem items.now }
    ensures changes { T.tells → Changes (change_of symbolic items.now target.now ∷ []) (filed_in T.files T.changes tree.old) (filed_in T.files T.changes tree.new) result }
    ensures fares { FaresFiles T.tells T.calls T.faults retries tree.old tree.new result }
{
    match target {
        Target::Keep { path, step } => write_made(alloc, path, items, *step, tree, retries),
        Target::Drop(path) => remove_file(path, tree, retries),
    }
}

/// Makes the changes of some targets, in order.
pub(crate) fn change_targets<T: Tree>(
    alloc: Global,
    items: &[Gathered],
    targets: &[Target],
    tree: &mut T,
    retries: u32,
) -> Result<(), ApplyFault>
    requires { All IsItem items.now }
    ensures changes { T.tells → Changes (map (change_of symbolic items.now) targets.now) (filed_in T.files T.changes tree.old) (filed_in T.files T.changes tree.new) result }
    ensures fares { FaresFiles T.tells T.calls T.faults retries tree.old tree.new result }
{
    'targets: for target in targets {
        change_target(alloc, items, target, tree, retries)?;
    }
    Ok(())
}

/// Writes a placeholder to the file of each output of a thunk, in order.
pub(crate) fn leave_placeholders<T: Tree>(
    alloc: Global,
    name: &Name,
    outputs: &[Path],
    tree: &mut T,
    retries: u32,
) -> Result<(), ApplyFault>
    requires few { length outputs.now ≤ 64 }
    requires thunk { (index : ℕ) → index < 2 ^ 32 → IsRef (Out name.now index) }
    ensures changes { T.tells → Changes (placeholders name.now 0 outputs.now) (filed_in T.files T.changes tree.old) (filed_in T.files T.changes tree.new) result }
    ensures fares { FaresFiles T.tells T.calls T.faults retries tree.old tree.new result }
{
    let mut index = 0;
    'outputs: for path in outputs {
        leave_placeholder(alloc, path, name, index, tree, retries)?;
        index += 1;
    }
    Ok(())
}
