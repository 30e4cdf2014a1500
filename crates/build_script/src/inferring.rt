//! Build scripts inferred.

ghost use Rattle.std.specs.Prelude.{◌≡◌, ◌≤◌};
ghost use Rattle.blob_store.specs.Keeping.{kept};
ghost use Rattle.file_tree.specs.Files.{filed_in};
ghost use Rattle.object_name.specs.Causes.{TriesAtMost};
ghost use Rattle.build_plan.specs.Applying.{sides};
ghost use Rattle.build_script.specs.Inferring.{InfersAs, LineInfers, added};
ghost use Rattle.build_script.specs.LineFaults.{LineCause, LineClashShows, WorkFaults, line_file_failures, line_kept_failures};
ghost use Rattle.build_script.specs.ScriptLines.{script_lines};

use crate::commands::own_word;
use crate::line_command::{line_command, word_fault};
use crate::line_fault::LineFault;
use crate::lines::{ScriptLine, script_lines};
use blob_store::Keeper;
use build_plan::apply_plan;
use file_tree::{ApplyFault, Tree};
use object_name::Bytes;
use std::alloc::Global;

/// What was inferred of a build script. A number that would pass 4,294,967,295 is that.
#[derive(Clone, Copy, Debug, PartialEq, Eq)]
pub struct Inferred {
    /// The lines with words.
    pub commands: u32,
    /// The thunks that were made.
    pub thunks: u32,
}

impl Inferred {
    /// With the numbers of more lines.
    fn with(self, more: Inferred) -> Inferred
        ensures { result ≡ added self more }
    {
        Inferred {
            commands: self.commands.saturating_add(more.commands),
            thunks: self.thunks.saturating_add(more.thunks),
        }
    }
}

/// The fault of a line whose work has a fault.
fn work_fault(alloc: Global, line: u32, words: &[Bytes], fault: ApplyFault) -> LineFault
    ensures { WorkFaults line words.now fault result }
{
    match fault {
        ApplyFault::Refused(refusal) => LineFault::Apply {
            line,
            fault: ApplyFault::Refused(refusal),
        },
        ApplyFault::Reason(reason) => word_fault(alloc, line, own_word(words), reason),
        ApplyFault::Clash { name, held, fresh } => LineFault::Apply {
            line,
            fault: ApplyFault::Clash { name, held, fresh },
        },
        ApplyFault::StoreFailed => LineFault::Apply {
            line,
            fault: ApplyFault::StoreFailed,
        },
        ApplyFault::FileFailed => LineFault::Apply {
            line,
            fault: ApplyFault::FileFailed,
        },
        ApplyFault::Memory => LineFault::Memory,
    }
}

/// Infers a line.
fn infer_line<T: Tree, K: Keeper>(
    alloc: Global,
    line: &ScriptLine,
    tree: &mut T,
    keeper: &mut K,
    retries: u32,
) -> Result<Inferred, LineFault>
    ensures exact { K.tells → T.tells → LineInfers line.now
        (sides (kept K.store K.writes) (filed_in T.files T.changes) keeper.old keeper.new tree.old tree.new) result }
    ensures clash { LineClashShows result }
    ensures kept_later { K.faults keeper.old ≤ K.faults keeper.new }
    ensures files_later { T.faults tree.old ≤ T.faults tree.new }
    ensures cause { LineCause retries (K.faults keeper.old) (K.faults keeper.new) (T.faults tree.old) (T.faults tree.new) result }
    ensures kept_tries { K.tells → TriesAtMost retries K.calls K.faults keeper.old keeper.new (line_kept_failures result) }
    ensures file_tries { T.tells → TriesAtMost retries T.calls T.faults tree.old tree.new (line_file_failures result) }
{
    let Some(command) = line_command(alloc, line)? else {
        return Ok(Inferred {
            commands: 0,
            thunks: 0,
        });
    };
    match apply_plan(alloc, &command.plan, tree, keeper, retries) {
        Ok(thunks) => Ok(Inferred {
            commands: 1,
            thunks,
        }),
        Err(fault) => {
            let words = command.words.as_slice();
            Err(work_fault(alloc, line.number, words, fault))
        }
    }
}

/// Infers lines, one after another.
fn infer_lines<T: Tree, K: Keeper>(
    alloc: Global,
    lines: &[ScriptLine],
    tree: &mut T,
    keeper: &mut K,
    retries: u32,
) -> Result<Inferred, LineFault>
    ensures exact { K.tells → T.tells → InfersAs lines.now
        (sides (kept K.store K.writes) (filed_in T.files T.changes) keeper.old keeper.new tree.old tree.new) result }
    ensures clash { LineClashShows result }
    ensures kept_later { K.faults keeper.old ≤ K.faults keeper.new }
    ensures files_later { T.faults tree.old ≤ T.faults tree.new }
    ensures cause { LineCause retries (K.faults keeper.old) (K.faults keeper.new) (T.faults tree.old) (T.faults tree.new) result }
    ensures kept_tries { K.tells → TriesAtMost retries K.calls K.faults keeper.old keeper.new (line_kept_failures result) }
    ensures file_tries { T.tells → TriesAtMost retries T.calls T.faults tree.old tree.new (line_file_failures result) }
{
    let mut inferred = Inferred {
        commands: 0,
        thunks: 0,
    };
    'lines: for line in lines {
        let more = infer_line(alloc, line, tree, keeper, retries)?;
        inferred = inferred.with(more);
    }
    Ok(inferred)
}

/// Does the commands of a build script without running tools, each in the tree that the line before leaves: thunks are stored and
/// placeholders are written. A failed call of the keeper or the tree is tried again, `retries` times at most. After a fault the lines
/// before the one that it names are done whole, and of that line what had been done by then.
pub fn infer<T: Tree, K: Keeper>(
    alloc: Global,
    lines: &[u8],
    tree: &mut T,
    keeper: &mut K,
    retries: u32,
) -> Result<Inferred, LineFault>
    ensures exact { K.tells → T.tells → InfersAs (script_lines lines.now)
        (sides (kept K.store K.writes) (filed_in T.files T.changes) keeper.old keeper.new tree.old tree.new) result }
    ensures clash { LineClashShows result }
    ensures kept_later { K.faults keeper.old ≤ K.faults keeper.new }
    ensures files_later { T.faults tree.old ≤ T.faults tree.new }
    ensures cause { LineCause retries (K.faults keeper.old) (K.faults keeper.new) (T.faults tree.old) (T.faults tree.new) result }
    ensures kept_tries { K.tells → TriesAtMost retries K.calls K.faults keeper.old keeper.new (line_kept_failures result) }
    ensures file_tries { T.tells → TriesAtMost retries T.calls T.faults tree.old tree.new (line_file_failures result) }
{
    let script = script_lines(alloc, lines)?;
    infer_lines(alloc, script.as_slice(), tree, keeper, retries)
}
