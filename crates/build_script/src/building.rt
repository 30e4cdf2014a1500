//! Build scripts built at once.

ghost use Rattle.std.specs.Prelude.{◌≤◌, Ok, Some};
ghost use Rattle.std.specs.List.{AllByRecursion};
ghost use Rattle.file_tree.specs.Files.{filed_in};
ghost use Rattle.object_name.specs.Causes.{TriesAtMost};
ghost use Rattle.build_script.specs.Building.{BuildsAs};
ghost use Rattle.build_script.specs.Commands.{own_word};
ghost use Rattle.build_script.specs.LineFaults.{TreeCause, line_file_failures};
ghost use Rattle.build_script.specs.ScriptLines.{script_lines};
ghost use Rattle.build_script.specs.WholeTree.{ScansForCpp};
ghost use Rattle.build_script.specs.LineCommand.{line_command};
ghost use Rattle.build_script.specs.WorkAtOnce.{FaresAs, IsLineFault, LineGoes, command_built};

use crate::commands::own_word;
use crate::line_command::{LineCommand, line_command, word_fault};
use crate::line_fault::LineFault;
use crate::lines::{ScriptLine, script_lines};
use crate::plan_at_once::do_plan;
use crate::run_fault::RunFault;
use file_tree::{ApplyFault, Reason, Tree};
use std::alloc::Global;

/// A fault of the work of a line's command.
fn line_fault(alloc: Global, line: u32, own_word: &[u8], fault: RunFault) -> LineFault
    ensures { IsLineFault line own_word.now fault result }
{
    match fault {
        RunFault::Refused(refusal) => LineFault::Apply {
            line,
            fault: ApplyFault::Refused(refusal),
        },
        RunFault::TooMany => word_fault(alloc, line, own_word, Reason::TooMany),
        RunFault::Tool(status) => LineFault::Tool { line, status },
        RunFault::Failed => LineFault::Apply {
            line,
            fault: ApplyFault::FileFailed,
        },
        RunFault::Memory => LineFault::Memory,
    }
}

/// Does the command of a line. Answers the number of commands done, which is one.
fn build_command<T: Tree>(
    alloc: Global,
    line: u32,
    command: &LineCommand,
    tree: &mut T,
    retries: u32,
) -> Result<u32, LineFault>
    requires { AllByRecursion ScansForCpp command.now.plan.steps }
    ensures goes { T.tells → LineGoes (command_built line (Ok (Some command.now))) (filed_in T.files T.changes tree.old) (filed_in T.files T.changes tree.new) line result }
    ensures fares { FaresAs T.tells T.calls T.faults retries tree.old tree.new result }
{
    match do_plan(alloc, &command.plan, tree, retries) {
        Ok(()) => Ok(1),
        Err(fault) => Err(line_fault(alloc, line, own_word(command.words.as_slice()), fault)),
    }
}

/// Does what a line says. Answers the number of commands done: none or one.
fn build_line<T: Tree>(
    alloc: Global,
    line: &ScriptLine,
    tree: &mut T,
    retries: u32,
) -> Result<u32, LineFault>
    ensures goes { T.tells → LineGoes (command_built line.now.number (line_command line.now)) (filed_in T.files T.changes tree.old) (filed_in T.files T.changes tree.new) line.now.number result }
    ensures fares { FaresAs T.tells T.calls T.faults retries tree.old tree.new result }
{
    match line_command(alloc, line)? {
        Some(command) => build_command(alloc, line.number, &command, tree, retries),
        None => Ok(0),
    }
}

/// Does some lines, one after another.
fn build_lines<T: Tree>(
    alloc: Global,
    lines: &[ScriptLine],
    tree: &mut T,
    retries: u32,
) -> Result<u32, LineFault>
    ensures exact { T.tells → BuildsAs lines.now (filed_in T.files T.changes tree.old) (filed_in T.files T.changes tree.new) result }
    ensures fares { FaresAs T.tells T.calls T.faults retries tree.old tree.new result }
{
    let mut commands: u32 = 0;
    'lines: for line in lines {
        let more = build_line(alloc, line, tree, retries)?;
        commands = commands.saturating_add(more);
    }
    Ok(commands)
}

/// Does the commands of a build script by running their tools, each in the tree that the line before leaves. Answers the number of
/// commands; a number that would pass 4,294,967,295 is that. A failed call of the tree is tried again, `retries` times at most. After a
/// fault the lines before the one that it names are done whole, and of that line what had been done by then.
pub fn build_at_once<T: Tree>(
    alloc: Global,
    lines: &[u8],
    tree: &mut T,
    retries: u32,
) -> Result<u32, LineFault>
    ensures exact { T.tells → BuildsAs (script_lines lines.now) (filed_in T.files T.changes tree.old) (filed_in T.files T.changes tree.new) result }
    ensures later { T.faults tree.old ≤ T.faults tree.new }
    ensures cause { TreeCause retries (T.faults tree.old) (T.faults tree.new) result }
    ensures tries { T.tells → TriesAtMost retries T.calls T.faults tree.old tree.new (line_file_failures result) }
{
    let script = script_lines(alloc, lines)?;
    build_lines(alloc, script.as_slice(), tree, retries)
}
