//! Scanning.

ghost use Rattle.std.specs.Prelude.{◌≡◌, ◌≤◌, [], IfOk, OnOk, length, true, bytes_eq};
ghost use Rattle.std.specs.List.{IsDistinct};
ghost use Rattle.object_name.specs.Causes.{TriesAtMost};
ghost use Rattle.text_lines.specs.Among.{is_among};
ghost use Rattle.thunk_codec.specs.Sorted.{sorted_paths};
ghost use Rattle.thunk_codec.specs.Thunk.{is_strictly_increasing};
ghost use Rattle.include_scan.specs.Scanned.{AreThere, IsScanned, Suffices, SufficesForJobs};
ghost use Rattle.include_scan.specs.Scanning.{IsInOrder, ScanCause, Scans, ScansTo, gathered, max_files, scan_of, scan_failures, scanned_paths};
ghost use Rattle.include_scan.specs.Queue.{Leaves, Waits};

use crate::fault::ScanFault;
use crate::queue::{MAX_FILES, Queue};
use crate::visits::visit_lines;
use file_tree::{Tree, read_again};
use indexmap::IndexSet;
use object_name::{Many, TryCopy};
use std::alloc::{AllocError, Global};
use thunk_codec::{Folder, Path, sort_paths};

/// Visits all files that the waiting files reach.
fn gather<T: Tree>(
    alloc: Global,
    tree: &mut T,
    folders: &[Folder],
    queue: &mut Queue,
    retries: u32,
) -> Result<(), ScanFault>
    ensures exact { T.tells → Waits (T.files tree.old) 0 queue.old → Leaves (gathered (T.files tree.old) folders.now max_files 0 queue.old.visited.keys) queue.new.visited.keys result }
    ensures few { OnOk result (length queue.old.visited.keys ≤ max_files → length queue.new.visited.keys ≤ max_files) }
    ensures same { T.tells → T.files tree.new ≡ T.files tree.old }
    ensures list { T.tells → T.changes tree.new ≡ T.changes tree.old }
    ensures later { T.faults tree.old ≤ T.faults tree.new }
    ensures cause { ScanCause retries (T.faults tree.old) (T.faults tree.new) result }
    ensures tries { T.tells → TriesAtMost retries T.calls T.faults tree.old tree.new (scan_failures result) }
{
    'files: for _ in 0..MAX_FILES {
        let Some((path, bytes)) = queue.next() else {
            return Ok(());
        };
        visit_lines(
            alloc,
            tree,
            folders,
            &path,
            bytes.as_slice(),
            queue,
            retries,
        )?;
    }
    Ok(())
}

/// Visits all files of a source.
fn visit_all<T: Tree>(
    alloc: Global,
    tree: &mut T,
    file: &Path,
    folders: &[Folder],
    queue: &mut Queue,
    retries: u32,
) -> Result<(), ScanFault>
    ensures exact { T.tells → queue.old.visited.keys ≡ [] → queue.old.waiting.items ≡ [] → Leaves (scan_of (T.files tree.old) folders.now file.now) queue.new.visited.keys result }
    ensures few { OnOk result (length queue.old.visited.keys ≤ max_files → length queue.new.visited.keys ≤ max_files) }
    ensures same { T.tells → T.files tree.new ≡ T.files tree.old }
    ensures list { T.tells → T.changes tree.new ≡ T.changes tree.old }
    ensures later { T.faults tree.old ≤ T.faults tree.new }
    ensures cause { ScanCause retries (T.faults tree.old) (T.faults tree.new) result }
    ensures tries { T.tells → TriesAtMost retries T.calls T.faults tree.old tree.new (scan_failures result) }
{
    let read = read_again(alloc, tree, file, retries)?;
    queue.add(alloc, file.copy(alloc)?, read)?;
    gather(alloc, tree, folders, queue, retries)
}

/// The paths of a set, in its order.
fn listed(alloc: Global, visited: IndexSet<Path>) -> Result<Many<Path>, AllocError>
    ensures paths { IfOk result (λ paths. paths ≡ visited.keys) }
    ensures distinct { IsDistinct bytes_eq visited.keys }
{
    let mut paths = Many(Vec::with_capacity(alloc, visited.len())?);
    'paths: for path in visited {
        paths.push(path)?;
    }
    Ok(paths)
}

/// The paths that were visited, in order.
fn in_order(alloc: Global, visited: IndexSet<Path>) -> Result<Many<Path>, AllocError>
    ensures sorted { IfOk result (λ paths. paths ≡ sorted_paths visited.keys) }
    ensures order { IfOk result (IsInOrder visited.keys) }
    ensures number { IfOk result (λ paths. length paths ≡ length visited.keys) }
{
    let paths = listed(alloc, visited)?;
    sort_paths(paths)
}

/// The files that preprocessing a source may read, in path order: the source and every file that an include line may find first, through
/// all files that are so reached and all their groups. What is found nowhere is passed over. A failed call of the tree is tried again,
/// `retries` times at most.
pub fn scan<T: Tree>(
    alloc: Global,
    tree: &mut T,
    file: &Path,
    folders: &[Folder],
    retries: u32,
) -> Result<Many<Path>, ScanFault>
    ensures exact { T.tells → Scans (scan_of (T.files tree.old) folders.now file.now) result }
    ensures scanned { T.tells → IfOk result (λ paths. IsScanned (T.files tree.old) folders.now file.now (is_among paths)) }
    ensures there { T.tells → IfOk result (AreThere (T.files tree.old)) }
    ensures sorted { T.tells → ScansTo (scanned_paths (T.files tree.old) folders.now file.now) result }
    ensures rising { IfOk result (λ paths. is_strictly_increasing paths ≡ true) }
    ensures limit { IfOk result (λ paths. length paths ≤ max_files) }
    ensures suffice { T.tells → IfOk result (λ paths. Suffices (T.files tree.old) folders.now file.now paths) }
    ensures suffice_for_jobs { T.tells → IfOk result (λ paths. SufficesForJobs (T.files tree.old) folders.now file.now paths) }
    ensures same { T.tells → T.files tree.new ≡ T.files tree.old }
    ensures list { T.tells → T.changes tree.new ≡ T.changes tree.old }
    ensures later { T.faults tree.old ≤ T.faults tree.new }
    ensures cause { ScanCause retries (T.faults tree.old) (T.faults tree.new) result }
    ensures tries { T.tells → TriesAtMost retries T.calls T.faults tree.old tree.new (scan_failures result) }
{
    let mut queue = Queue::new(alloc);
    visit_all(alloc, tree, file, folders, &mut queue, retries)?;
    Ok(in_order(alloc, queue.visited)?)
}
