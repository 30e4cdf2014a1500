//! Visits of the files that the lines of a file go into.

ghost use Rattle.std.specs.Prelude.{◌≡◌, ◌≤◌, ℕ, OnOk, length};
ghost use Rattle.object_name.specs.Name.{max_size};
ghost use Rattle.text_lines.specs.Lines.{lines_of};
ghost use Rattle.object_name.specs.Causes.{TriesAtMost};
ghost use Rattle.tool_text.specs.Directive.{directive_of};
ghost use Rattle.tool_text.specs.IncludeLine.{include_of};
ghost use Rattle.tool_text.specs.Including as including;
ghost use Rattle.tool_text.specs.Including.{first_there};
ghost use Rattle.tool_text.specs.Seen.{target_seen};
ghost use Rattle.include_scan.specs.Scanning.{ScanCause, after_lines, max_files, visit_found, scan_failures};
ghost use Rattle.include_scan.specs.Queue.{Asks, Visits, Waits};

use crate::fault::ScanFault;
use crate::found::find;
use crate::queue::Queue;
use file_tree::{FileRefusal, Tree};
use object_name::TryCopy;
use std::alloc::Global;
use text_lines::next_line;
use thunk_codec::{Folder, Path};
use tool_text::{IncludeLine, Target, candidates, include_line};

/// The file that a line asks for, if it is an include line.
fn asked<'a>(
    alloc: Global,
    path: &Path,
    number: u32,
    line: &'a [u8],
) -> Result<Option<Target<'a>>, ScanFault>
    ensures { Asks path.now number (include_of (directive_of line.now)) result }
{
    match include_line(line) {
        IncludeLine::Other => Ok(None),
        IncludeLine::Quoted(file) => Ok(Some(Target::Quoted(file))),
        IncludeLine::Angled(file) => Ok(Some(Target::Angled(file))),
        IncludeLine::Computed => Err(ScanFault::Refused(FileRefusal::Computed {
            path: path.copy(alloc)?,
            line: number,
        })),
    }
}

/// Visits the file that an include line goes into.
fn visit_target<T: Tree>(
    alloc: Global,
    tree: &mut T,
    folders: &[Folder],
    path: &Path,
    target: Target<'_>,
    queue: &mut Queue,
    retries: u32,
) -> Result<(), ScanFault>
    ensures exact { T.tells → (index : ℕ) → Waits (T.files tree.old) index queue.old
        → Visits (T.files tree.old) index queue.new (visit_found (T.files tree.old) (first_there (T.files tree.old) (including.candidates folders.now path.now (target_seen target.entry))) queue.old.visited.keys) result }
    ensures few { OnOk result (length queue.old.visited.keys ≤ max_files → length queue.new.visited.keys ≤ max_files) }
    ensures same { T.tells → T.files tree.new ≡ T.files tree.old }
    ensures list { T.tells → T.changes tree.new ≡ T.changes tree.old }
    ensures later { T.faults tree.old ≤ T.faults tree.new }
    ensures cause { ScanCause retries (T.faults tree.old) (T.faults tree.new) result }
    ensures tries { T.tells → TriesAtMost retries T.calls T.faults tree.old tree.new (scan_failures result) }
{
    let candidates = candidates(alloc, folders, path, target)?;
    let found = find(alloc, tree, &queue.visited, candidates.as_slice(), retries)?;
    queue.visit(alloc, found)
}

/// Visits the files of all include lines of a file, in order.
pub(crate) fn visit_lines<T: Tree>(
    alloc: Global,
    tree: &mut T,
    folders: &[Folder],
    path: &Path,
    bytes: &[u8],
    queue: &mut Queue,
    retries: u32,
) -> Result<(), ScanFault>
    ensures exact { T.tells → (index : ℕ) → Waits (T.files tree.old) index queue.old → length bytes.now ≤ max_size
        → Visits (T.files tree.old) index queue.new (after_lines (T.files tree.old) folders.now path.now 1 (lines_of bytes.now) queue.old.visited.keys) result }
    ensures few { OnOk result (length queue.old.visited.keys ≤ max_files → length queue.new.visited.keys ≤ max_files) }
    ensures same { T.tells → T.files tree.new ≡ T.files tree.old }
    ensures list { T.tells → T.changes tree.new ≡ T.changes tree.old }
    ensures later { T.faults tree.old ≤ T.faults tree.new }
    ensures cause { ScanCause retries (T.faults tree.old) (T.faults tree.new) result }
    ensures tries { T.tells → TriesAtMost retries T.calls T.faults tree.old tree.new (scan_failures result) }
{
    let mut number: u32 = 1;
    let mut rest = bytes;
    'lines: while let Some((line, after)) = next_line(rest) {
        let asked = match asked(alloc, path, number, line) {
            Ok(asked) => asked,
            Err(fault) => return Err(fault),
        };
        rest = after;
        number = number.saturating_add(1);
        let Some(target) = asked else {
            continue;
        };
        visit_target(alloc, tree, folders, path, target, queue, retries)?;
    }
    Ok(())
}
