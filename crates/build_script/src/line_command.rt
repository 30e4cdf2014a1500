//! Commands of build lines.

ghost use Rattle.std.specs.Prelude.{IfOk, Ok, Err};
ghost use Rattle.build_script.specs.Commands.{command_plan};
ghost use Rattle.build_script.specs.FoundCommands.{FindsCommand, IsFitCommand};
ghost use Rattle.build_script.specs.LineCommand.{AtWord, line_command, planned_command, worded_command};

use crate::commands::{plan_command, word_at};
use crate::line_fault::LineFault;
use crate::line_words::words_of;
use crate::lines::ScriptLine;
use crate::pieces::piece_of;
use build_plan::Plan;
use file_tree::{PlanFault, Reason};
use object_name::{Bytes, Many};
use std::alloc::Global;

/// A command of a line.
#[derive(Debug, Drop)]
pub struct LineCommand {
    pub words: Many<Bytes>,
    pub plan: Plan,
}

/// A word of a line is refused.
pub(crate) fn word_fault(alloc: Global, line: u32, word: &[u8], reason: Reason) -> LineFault
    ensures { FindsCommand (Err result) (Err (AtWord line word.now reason)) }
{
    match Bytes::from_slice(alloc, word) {
        Ok(word) => LineFault::Word { line, word, reason },
        Err(_) => LineFault::Memory,
    }
}

/// A command with its plan, in the line of a number.
fn planned_command(
    alloc: Global,
    number: u32,
    words: Many<Bytes>,
) -> Result<Option<LineCommand>, LineFault>
    ensures exact { FindsCommand result (planned_command number words (command_plan words)) }
    ensures fits { IfOk result IsFitCommand }
{
    match plan_command(alloc, words.as_slice()) {
        Ok(plan) => Ok(Some(LineCommand { words, plan })),
        Err(PlanFault::Refused { at, reason }) => Err(word_fault(
            alloc,
            number,
            word_at(words.as_slice(), at),
            reason,
        )),
        Err(PlanFault::Memory) => Err(LineFault::Memory),
    }
}

/// What a line says by its words.
fn worded_command(
    alloc: Global,
    line: &ScriptLine,
    words: Many<Bytes>,
) -> Result<Option<LineCommand>, LineFault>
    ensures exact { FindsCommand result (worded_command line.now (Ok words)) }
    ensures fits { IfOk result IsFitCommand }
{
    if words.is_empty() {
        return Ok(None);
    }
    planned_command(alloc, line.number, words)
}

/// What a line says: nothing, or a command with its plan.
pub(crate) fn line_command(
    alloc: Global,
    line: &ScriptLine,
) -> Result<Option<LineCommand>, LineFault>
    ensures exact { FindsCommand result (line_command line.now) }
    ensures fits { IfOk result IsFitCommand }
{
    let text = line.text.as_slice();
    match words_of(alloc, text) {
        Ok(words) => worded_command(alloc, line, words),
        Err(PlanFault::Refused { at, reason }) => {
            Err(word_fault(alloc, line.number, piece_of(text, at), reason))
        }
        Err(PlanFault::Memory) => Err(LineFault::Memory),
    }
}
