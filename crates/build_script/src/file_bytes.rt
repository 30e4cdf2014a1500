//! The bytes of files.

ghost use Rattle.std.specs.Prelude.{◌≡◌, Ok};
ghost use Rattle.thunk_codec.specs.Placeholder.{placeholder_of};
ghost use Rattle.file_tree.specs.Files.{file_read};
ghost use Rattle.build_plan.specs.Way.{bytes_or};
ghost use Rattle.build_script.specs.AtOnce.{bytes_of, plain_bytes};
ghost use Rattle.build_script.specs.WorkAtOnce.{Finds, Reads, bytes_if_there, failures, first_bytes};

use crate::run_fault::RunFault;
use file_tree::{FileRead, FileRefusal, Tree, read_again};
use object_name::{Bytes, TryCopy};
use std::alloc::Global;
use thunk_codec::{Path, read_placeholder};

/// What stands at a path.
fn read_file<T: Tree>(
    alloc: Global,
    path: &Path,
    tree: &mut T,
    retries: u32,
) -> Result<FileRead, RunFault>
    ensures exact { T.tells → Finds (Ok (file_read (T.files tree.old path.now))) result }
    ensures reads { Reads T.tells T.files T.changes T.calls T.faults retries tree.old tree.new (failures result) }
{
    let read = read_again(alloc, tree, path, retries)?;
    Ok(read)
}

/// The bytes of a file, unless they are a placeholder.
fn plain_bytes(alloc: Global, path: &Path, bytes: Bytes) -> Result<Bytes, RunFault>
    ensures exact { Finds (plain_bytes path.now bytes (placeholder_of bytes)) result }
    ensures pure { failures result ≡ 0 }
{
    match read_placeholder(bytes.as_slice()) {
        Some(_) => Err(RunFault::Refused(FileRefusal::Generated(path.copy(alloc)?))),
        None => Ok(bytes),
    }
}

/// The bytes of a file, by what was read.
fn bytes_or(alloc: Global, path: &Path, read: FileRead) -> Result<Bytes, RunFault>
    ensures exact { Finds (bytes_or path.now read) result }
    ensures pure { failures result ≡ 0 }
{
    match read {
        FileRead::Absent => Err(RunFault::Refused(FileRefusal::NoFile(path.copy(alloc)?))),
        FileRead::TooLong => Err(RunFault::Refused(FileRefusal::TooLong(path.copy(alloc)?))),
        FileRead::Bytes(bytes) => Ok(bytes),
    }
}

/// The bytes of a file for a tool, by what was read.
fn bytes_of(alloc: Global, path: &Path, read: FileRead) -> Result<Bytes, RunFault>
    ensures exact { Finds (bytes_of path.now read) result }
    ensures pure { failures result ≡ 0 }
{
    let bytes = bytes_or(alloc, path, read)?;
    plain_bytes(alloc, path, bytes)
}

/// The bytes of a file for a tool, if there is a file, by what was read.
fn bytes_if_there(alloc: Global, path: &Path, read: FileRead) -> Result<Option<Bytes>, RunFault>
    ensures exact { Finds (bytes_if_there path.now read) result }
    ensures pure { failures result ≡ 0 }
{
    match read {
        FileRead::Absent => Ok(None),
        read => Ok(Some(bytes_of(alloc, path, read)?)),
    }
}

/// Reads the file at a path for a tool.
pub(crate) fn read_bytes<T: Tree>(
    alloc: Global,
    path: &Path,
    tree: &mut T,
    retries: u32,
) -> Result<Bytes, RunFault>
    ensures exact { T.tells → Finds (bytes_of path.now (file_read (T.files tree.old path.now))) result }
    ensures reads { Reads T.tells T.files T.changes T.calls T.faults retries tree.old tree.new (failures result) }
{
    let read = read_file(alloc, path, tree, retries)?;
    bytes_of(alloc, path, read)
}

/// Takes the bytes of the file at a path, as they are.
pub(crate) fn take_bytes<T: Tree>(
    alloc: Global,
    path: &Path,
    tree: &mut T,
    retries: u32,
) -> Result<Bytes, RunFault>
    ensures exact { T.tells → Finds (bytes_or path.now (file_read (T.files tree.old path.now))) result }
    ensures reads { Reads T.tells T.files T.changes T.calls T.faults retries tree.old tree.new (failures result) }
{
    let read = read_file(alloc, path, tree, retries)?;
    bytes_or(alloc, path, read)
}

/// Reads the file at a path for a tool, if there is one.
pub(crate) fn read_if_there<T: Tree>(
    alloc: Global,
    path: &Path,
    tree: &mut T,
    retries: u32,
) -> Result<Option<Bytes>, RunFault>
    ensures exact { T.tells → Finds (bytes_if_there path.now (file_read (T.files tree.old path.now))) result }
    ensures reads { Reads T.tells T.files T.changes T.calls T.faults retries tree.old tree.new (failures result) }
{
    let read = read_file(alloc, path, tree, retries)?;
    bytes_if_there(alloc, path, read)
}

/// Reads the file at the first of some paths that is there. Each is read once.
pub(crate) fn read_first<T: Tree>(
    alloc: Global,
    missing: &Path,
    places: &[Path],
    tree: &mut T,
    retries: u32,
) -> Result<Bytes, RunFault>
    ensures exact { T.tells → Finds (first_bytes (T.files tree.old) missing.now places.now) result }
    ensures reads { Reads T.tells T.files T.changes T.calls T.faults retries tree.old tree.new (failures result) }
{
    'places: for place in places {
        if let Some(bytes) = read_if_there(alloc, place, tree, retries)? {
            return Ok(bytes);
        }
    }
    Err(RunFault::Refused(FileRefusal::NoFile(missing.copy(alloc)?)))
}
