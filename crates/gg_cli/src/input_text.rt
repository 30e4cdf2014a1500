//! The text of the input.

ghost use Rattle.std.specs.Prelude.{◌≡◌, ◌≤◌, IfOk, length};
ghost use Rattle.object_name.specs.Name.{max_size};
ghost use Rattle.gg_cli.specs.Words.{reads_input};
ghost use Rattle.gg_cli.specs.InputText.{GivesText, IsPartRead, ReadsText, input_of};

use crate::command::Command;
use crate::fault::TopFault;
use object_name::{Bytes, MAX_SIZE, ReadEnd, Source, read_all};
use std::alloc::Global;

/// Whether a command reads the input.
fn reads_input(command: &Command) -> bool
    ensures { result ≡ reads_input command.now }
{
    match command {
        Command::Force { .. } => false,
        Command::ForceWith { .. } => false,
        Command::CreateThunk(_) => false,
        Command::Model(_) => false,
        Command::Infer => true,
        Command::Build => true,
        Command::Describe(_) => false,
        Command::Demo(_) => false,
        Command::Worker { .. } => false,
        Command::Help => false,
    }
}

/// Reads the input to its end.
fn read_text<I: Source>(alloc: Global, input: &mut I) -> Result<Bytes, TopFault>
    ensures part { IsPartRead (input_of I.left I.faults I.reads input.old) (input_of I.left I.faults I.reads input.new) }
    ensures reads { ReadsText (input_of I.left I.faults I.reads input.old) (input_of I.left I.faults I.reads input.new) result }
    ensures fits { IfOk result (λ text. length text ≤ max_size) }
{
    match read_all(alloc, input, MAX_SIZE as usize) {
        Ok(text) => Ok(text),
        Err(ReadEnd::TooLong) => Err(TopFault::InputTooLong),
        Err(ReadEnd::Failed) => Err(TopFault::InputFailed),
        Err(ReadEnd::Memory) => Err(TopFault::Memory),
    }
}

/// The text of the input for a command: a command that reads none gets an empty one, and the input is left alone.
pub(crate) fn input_text<I: Source>(
    alloc: Global,
    input: &mut I,
    command: &Command,
) -> Result<Bytes, TopFault>
    ensures gives { GivesText (reads_input command.now) (input_of I.left I.faults I.reads input.old) (input_of I.left I.faults I.reads input.new) result }
    ensures fits { IfOk result (λ text. length text ≤ max_size) }
{
    if reads_input(command) {
        return read_text(alloc, input);
    }
    Ok(Bytes::new(alloc))
}
