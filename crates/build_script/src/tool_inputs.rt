//! Inputs of tools.

ghost use Rattle.std.specs.Prelude.{◌≡◌, ◌++◌, ◌∷◌, List, ℕ, [], IfOk, Some, map};
ghost use Rattle.build_plan.specs.Doing.{each};
ghost use Rattle.build_plan.specs.Way.{file_input, item_at, optional_input};
ghost use Rattle.build_script.specs.AtOnce.{input_bytes, source_bytes};
ghost use Rattle.build_script.specs.WorkAtOnce.{Goes, Reads, behind, failures};

use crate::file_bytes::{read_bytes, read_if_there};
use crate::run_fault::RunFault;
use build_plan::Source;
use file_tree::Tree;
use object_name::{Bytes, Many, TryCopy};
use std::alloc::{AllocError, Global};
use thunk_codec::Path;

/// What the step at a place gathered, or no bytes where there is none.
pub(crate) fn item_at(items: &[Bytes], place: u32) -> &[u8]
    ensures { result.now ≡ item_at [] items.now place }
{
    match items.get(place as usize) {
        Some(item) => item.as_slice(),
        None => b"",
    }
}

/// The same, copied.
fn copied_item(alloc: Global, items: &[Bytes], place: u32) -> Result<Bytes, AllocError>
    ensures { IfOk result (λ bytes. bytes ≡ item_at [] items.now place) }
{
    Bytes::from_slice(alloc, item_at(items, place))
}

/// The bytes of an input: those of a file that is read, or what was gathered.
fn source_bytes<T: Tree>(
    alloc: Global,
    items: &[Bytes],
    source: &Source,
    tree: &mut T,
    retries: u32,
) -> Result<Bytes, RunFault>
    ensures goes { T.tells → Goes (source_bytes items.now source.now) (T.files tree.old) result }
    ensures reads { Reads T.tells T.files T.changes T.calls T.faults retries tree.old tree.new (failures result) }
{
    match source {
        Source::File(path) => read_bytes(alloc, path, tree, retries),
        Source::Made(place) => Ok(copied_item(alloc, items, *place)?),
    }
}

/// Some inputs with their bytes, in order.
fn read_inputs<T: Tree>(
    alloc: Global,
    items: &[Bytes],
    inputs: &[(Path, Source)],
    tree: &mut T,
    retries: u32,
) -> Result<Many<(Path, Bytes)>, RunFault>
    ensures goes { T.tells → Goes (each (input_bytes items.now) inputs.now) (T.files tree.old) result }
    ensures reads { Reads T.tells T.files T.changes T.calls T.faults retries tree.old tree.new (failures result) }
{
    let mut read = Many::new(alloc);
    'inputs: for (path, source) in inputs {
        let bytes = source_bytes(alloc, items, source, tree, retries)?;
        read.push((path.copy(alloc)?, bytes))?;
    }
    Ok(read)
}

/// Some inputs, and one more behind them.
fn with_input(
    alloc: Global,
    mut read: Many<(Path, Bytes)>,
    place: &Path,
    bytes: Bytes,
) -> Result<Many<(Path, Bytes)>, AllocError>
    ensures { IfOk result (λ more. more ≡ read ++ (place.now, bytes) ∷ []) }
{
    read.push((place.copy(alloc)?, bytes))?;
    Ok(read)
}

/// Some inputs, and behind them that of a file, if it is there.
fn with_file<T: Tree>(
    alloc: Global,
    read: Many<(Path, Bytes)>,
    place: &Path,
    path: &Path,
    tree: &mut T,
    retries: u32,
) -> Result<Many<(Path, Bytes)>, RunFault>
    ensures goes { T.tells → (items : List (List ℕ)) → Goes (behind (input_bytes items) read (optional_input (T.files tree.old) (Some (place.now, path.now)))) (T.files tree.old) result }
    ensures reads { Reads T.tells T.files T.changes T.calls T.faults retries tree.old tree.new (failures result) }
{
    match read_if_there(alloc, path, tree, retries)? {
        Some(bytes) => Ok(with_input(alloc, read, place, bytes)?),
        None => Ok(read),
    }
}

/// Some inputs, and behind them one more, if its file is there.
fn with_optional<T: Tree>(
    alloc: Global,
    read: Many<(Path, Bytes)>,
    optional: &Option<(Path, Path)>,
    tree: &mut T,
    retries: u32,
) -> Result<Many<(Path, Bytes)>, RunFault>
    ensures goes { T.tells → (items : List (List ℕ)) → Goes (behind (input_bytes items) read (optional_input (T.files tree.old) optional.now)) (T.files tree.old) result }
    ensures reads { Reads T.tells T.files T.changes T.calls T.faults retries tree.old tree.new (failures result) }
{
    match optional {
        Some((place, path)) => with_file(alloc, read, place, path, tree, retries),
        None => Ok(read),
    }
}

/// Some inputs with their bytes, in order, and behind them one more, if its file is there.
pub(crate) fn completed_inputs<T: Tree>(
    alloc: Global,
    items: &[Bytes],
    inputs: &[(Path, Source)],
    optional: &Option<(Path, Path)>,
    tree: &mut T,
    retries: u32,
) -> Result<Many<(Path, Bytes)>, RunFault>
    ensures goes { T.tells → Goes (each (input_bytes items.now) (inputs.now ++ optional_input (T.files tree.old) optional.now)) (T.files tree.old) result }
    ensures reads { Reads T.tells T.files T.changes T.calls T.faults retries tree.old tree.new (failures result) }
{
    let read = read_inputs(alloc, items, inputs, tree, retries)?;
    with_optional(alloc, read, optional, tree, retries)
}

/// Some files as inputs, each under its own path.
pub(crate) fn file_inputs<T: Tree>(
    alloc: Global,
    paths: &[Path],
    tree: &mut T,
    retries: u32,
) -> Result<Many<(Path, Bytes)>, RunFault>
    ensures goes { T.tells → Goes (each (input_bytes []) (map file_input paths.now)) (T.files tree.old) result }
    ensures reads { Reads T.tells T.files T.changes T.calls T.faults retries tree.old tree.new (failures result) }
{
    let mut read = Many::new(alloc);
    'paths: for path in paths {
        let bytes = read_bytes(alloc, path, tree, retries)?;
        read.push((path.copy(alloc)?, bytes))?;
    }
    Ok(read)
}
