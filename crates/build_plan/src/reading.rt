//! Files that steps read.

ghost use Rattle.std.specs.Prelude.{◌≤◌, IfOk, IfSome, Ok, length};
ghost use Rattle.object_name.specs.Name.{max_size};
ghost use Rattle.thunk_codec.specs.Placeholder.{placeholder_of};
ghost use Rattle.file_tree.specs.Files.{IsShort, file_read};
ghost use Rattle.build_plan.specs.Gathered.{item_of, item_of_bytes};
ghost use Rattle.build_plan.specs.Symbolic.{item_or};
ghost use Rattle.build_plan.specs.Way.{bytes_or};
ghost use Rattle.build_plan.specs.StepContracts.{Finds, IsItem, NoCallFails, ReadsFiles, first_item, item_if_there};

use crate::faults::tree_fault;
use crate::gathered::Gathered;
use file_tree::{ApplyFault, FileRead, FileRefusal, Tree, read_again};
use object_name::{Bytes, Kind, TryCopy, kind_of};
use std::alloc::Global;
use thunk_codec::{Path, read_placeholder};

/// What stands at a path.
fn read_file<T: Tree>(
    alloc: Global,
    path: &Path,
    tree: &mut T,
    retries: u32,
) -> Result<FileRead, ApplyFault>
    ensures exact { T.tells → Finds (Ok (file_read (T.files tree.old path.now))) result }
    ensures short { IfOk result IsShort }
    ensures reads { ReadsFiles T.tells T.files T.changes T.calls T.faults retries tree.old tree.new result }
{
    match read_again(alloc, tree, path, retries) {
        Ok(read) => Ok(read),
        Err(trouble) => Err(tree_fault(trouble)),
    }
}

/// What some bytes of a file are gathered as.
fn item_of_bytes(alloc: Global, path: &Path, bytes: Bytes) -> Result<Gathered, ApplyFault>
    requires { length bytes ≤ max_size }
    ensures exact { Finds (item_or (item_of_bytes path.now bytes (placeholder_of bytes))) result }
    ensures item { IfOk result IsItem }
    ensures pure { NoCallFails result }
{
    if let Some((name, index)) = read_placeholder(bytes.as_slice()) {
        return Ok(Gathered::Output(name, index));
    }
    match kind_of(bytes.as_slice()) {
        Kind::Value => Ok(Gathered::Plain(bytes)),
        Kind::Thunk => Err(ApplyFault::Refused(FileRefusal::ThunkText(path.copy(alloc)?))),
    }
}

/// The bytes of a file, by what was read.
fn bytes_of(alloc: Global, path: &Path, read: FileRead) -> Result<Bytes, ApplyFault>
    requires { IsShort read }
    ensures exact { Finds (bytes_or path.now read) result }
    ensures short { IfOk result (λ bytes. length bytes ≤ max_size) }
    ensures pure { NoCallFails result }
{
    match read {
        FileRead::Absent => Err(ApplyFault::Refused(FileRefusal::NoFile(path.copy(alloc)?))),
        FileRead::TooLong => Err(ApplyFault::Refused(FileRefusal::TooLong(path.copy(alloc)?))),
        FileRead::Bytes(bytes) => Ok(bytes),
    }
}

/// What a file is gathered as, by what was read.
fn item_of(alloc: Global, path: &Path, read: FileRead) -> Result<Gathered, ApplyFault>
    requires { IsShort read }
    ensures exact { Finds (item_or (item_of path.now read)) result }
    ensures item { IfOk result IsItem }
    ensures pure { NoCallFails result }
{
    let bytes = bytes_of(alloc, path, read)?;
    item_of_bytes(alloc, path, bytes)
}

/// Reads the file at a path, as an input of a tool.
pub(crate) fn read_item<T: Tree>(
    alloc: Global,
    path: &Path,
    tree: &mut T,
    retries: u32,
) -> Result<Gathered, ApplyFault>
    ensures exact { T.tells → Finds (item_or (item_of path.now (file_read (T.files tree.old path.now)))) result }
    ensures item { IfOk result IsItem }
    ensures reads { ReadsFiles T.tells T.files T.changes T.calls T.faults retries tree.old tree.new result }
{
    let read = read_file(alloc, path, tree, retries)?;
    item_of(alloc, path, read)
}

/// Takes the bytes of the file at a path, as they are.
pub(crate) fn take_bytes<T: Tree>(
    alloc: Global,
    path: &Path,
    tree: &mut T,
    retries: u32,
) -> Result<Bytes, ApplyFault>
    ensures exact { T.tells → Finds (bytes_or path.now (file_read (T.files tree.old path.now))) result }
    ensures short { IfOk result (λ bytes. length bytes ≤ max_size) }
    ensures reads { ReadsFiles T.tells T.files T.changes T.calls T.faults retries tree.old tree.new result }
{
    let read = read_file(alloc, path, tree, retries)?;
    bytes_of(alloc, path, read)
}

/// What the file at a path is gathered as, if there is a file, by what was read.
fn item_if_there(alloc: Global, path: &Path, read: FileRead) -> Result<Option<Gathered>, ApplyFault>
    requires { IsShort read }
    ensures exact { Finds (item_if_there path.now read) result }
    ensures item { IfOk result (λ found. IfSome found IsItem) }
    ensures pure { NoCallFails result }
{
    match read {
        FileRead::Absent => Ok(None),
        read => Ok(Some(item_of(alloc, path, read)?)),
    }
}

/// Reads the file at a path, if there is one, as an input of a tool.
pub(crate) fn read_if_there<T: Tree>(
    alloc: Global,
    path: &Path,
    tree: &mut T,
    retries: u32,
) -> Result<Option<Gathered>, ApplyFault>
    ensures exact { T.tells → Finds (item_if_there path.now (file_read (T.files tree.old path.now))) result }
    ensures item { IfOk result (λ found. IfSome found IsItem) }
    ensures reads { ReadsFiles T.tells T.files T.changes T.calls T.faults retries tree.old tree.new result }
{
    let read = read_file(alloc, path, tree, retries)?;
    item_if_there(alloc, path, read)
}

/// Reads the file at the first of some paths that is there. Each is read once.
pub(crate) fn read_first<T: Tree>(
    alloc: Global,
    missing: &Path,
    places: &[Path],
    tree: &mut T,
    retries: u32,
) -> Result<Gathered, ApplyFault>
    ensures exact { T.tells → Finds (first_item (T.files tree.old) missing.now places.now) result }
    ensures item { IfOk result IsItem }
    ensures reads { ReadsFiles T.tells T.files T.changes T.calls T.faults retries tree.old tree.new result }
{
    'places: for place in places {
        if let Some(item) = read_if_there(alloc, place, tree, retries)? {
            return Ok(item);
        }
    }
    Err(ApplyFault::Refused(FileRefusal::NoFile(missing.copy(alloc)?)))
}
