//! Command lines, by their words.

ghost use Rattle.std.specs.Prelude.{◌≡◌, Some, None, map, string_bytes, IfOk, IsErrOf};
ghost use Rattle.gg_cli.specs.Words.{alone, any_force_of, model_of, describe_of, demo_of, command_of, command_here, command_linked, here, linked, IsCommand};
ghost use Rattle.gg_cli.specs.Reading.{Finds};

use crate::command::Command;
use crate::create_words::read_create;
use crate::force_words::read_force;
use crate::item_words::read_output;
use crate::linked_words::{begins_with_links, read_linked};
use crate::number_words::read_within;
use crate::word_fault::WordFault;
use crate::worker_words::read_worker;
use object_name::{Bytes, Many};
use std::alloc::{AllocError, Global};

/// The most functions that a demonstration may have.
const MAX_FUNCTIONS: u32 = 500;

/// Copies of some words.
fn copied(alloc: Global, words: &[String]) -> Result<Many<Bytes>, AllocError>
    ensures { IfOk result (λ copies. copies ≡ map string_bytes words.now) }
{
    let mut copies = Many::new(alloc);
    'words: for word in words {
        let copy = Bytes::from_slice(alloc, word.as_bytes())?;
        copies.push(copy)?;
    }
    Ok(copies)
}

/// The command by what follows `model`.
fn read_model(alloc: Global, words: &[String]) -> Result<Command, WordFault>
    ensures exact { Finds result (model_of (map string_bytes words.now)) }
    ensures rules { IfOk result (λ command. IsCommand command) }
{
    if words.is_empty() {
        return Err(WordFault::Usage);
    }
    Ok(Command::Model(copied(alloc, words)?))
}

/// A command that no word may follow, by the words that do.
fn read_alone(command: Command, words: &[String]) -> Result<Command, WordFault>
    requires { IsCommand command }
    ensures exact { Finds result (alone command (map string_bytes words.now)) }
    ensures rules { IfOk result (λ command. IsCommand command) }
{
    if words.is_empty() {
        return Ok(command);
    }
    Err(WordFault::Usage)
}

/// The command by what follows `describe`.
fn read_describe(alloc: Global, words: &[String]) -> Result<Command, WordFault>
    ensures exact { Finds result (describe_of (map string_bytes words.now)) }
    ensures rules { IfOk result (λ command. IsCommand command) }
{
    match words {
        [word] => Ok(Command::Describe(read_output(alloc, word.as_bytes())?)),
        _ => Err(WordFault::Usage),
    }
}

/// The command by what follows `force`: over links where the words begin with such a mode.
fn read_any_force(alloc: Global, words: &[String]) -> Result<Command, WordFault>
    ensures exact { Finds result (any_force_of (map string_bytes words.now)) }
    ensures rules { IfOk result (λ command. IsCommand command) }
{
    if begins_with_links(words) {
        return read_linked(alloc, words);
    }
    read_force(alloc, words)
}

/// The command by what follows `demo`.
fn read_demo(words: &[String]) -> Result<Command, WordFault>
    ensures exact { Finds result (demo_of (map string_bytes words.now)) }
    ensures rules { IfOk result (λ command. IsCommand command) }
{
    match words {
        [word] => match read_within(word.as_bytes(), 1, MAX_FUNCTIONS) {
            Some(count) => Ok(Command::Demo(count)),
            None => Err(WordFault::Usage),
        },
        _ => Err(WordFault::Usage),
    }
}

/// The command that some words are.
#[tactic(auto, unfolding(crate::specs::Words::command_of))]
pub fn read_words(alloc: Global, words: &[String]) -> Result<Command, WordFault>
    ensures exact { Finds result (command_of (map string_bytes words.now)) }
    ensures found { IfOk result (λ command. command_of (map string_bytes words.now) ≡ Some command) }
    ensures rules { IfOk result (λ command. IsCommand command) }
    ensures usage { IsErrOf result WordFault.Usage → command_of (map string_bytes words.now) ≡ None }
{
    let Some((first, others)) = words.split_first() else {
        return Err(WordFault::Usage);
    };
    if first.as_bytes() == b"force".as_slice() {
        return read_any_force(alloc, others);
    }
    if first.as_bytes() == b"create-thunk".as_slice() {
        return read_create(alloc, others);
    }
    if first.as_bytes() == b"model".as_slice() {
        return read_model(alloc, others);
    }
    if first.as_bytes() == b"infer".as_slice() {
        return read_alone(Command::Infer, others);
    }
    if first.as_bytes() == b"build".as_slice() {
        return read_alone(Command::Build, others);
    }
    if first.as_bytes() == b"describe".as_slice() {
        return read_describe(alloc, others);
    }
    if first.as_bytes() == b"demo".as_slice() {
        return read_demo(others);
    }
    if first.as_bytes() == b"worker".as_slice() {
        return read_worker(alloc, others);
    }
    if first.as_bytes() == b"help".as_slice() {
        return read_alone(Command::Help, others);
    }
    Err(WordFault::Usage)
}

/// A command, where it is done without links.
fn here(command: Command) -> Result<Command, WordFault>
    requires { IsCommand command }
    ensures exact { Finds result (here command) }
    ensures rules { IfOk result (λ found. IsCommand found) }
    ensures done_here { IfOk result (λ found. here found ≡ Some found) }
{
    match command {
        Command::ForceWith { .. } => Err(WordFault::Usage),
        Command::Worker { .. } => Err(WordFault::Usage),
        other => Ok(other),
    }
}

/// The command that some words are for a call without links.
#[tactic(auto, unfolding(crate::specs::Words::command_here))]
pub(crate) fn read_here(alloc: Global, words: &[String]) -> Result<Command, WordFault>
    ensures exact { Finds result (command_here (map string_bytes words.now)) }
    ensures found { IfOk result (λ command. command_here (map string_bytes words.now) ≡ Some command) }
    ensures rules { IfOk result (λ command. IsCommand command) }
    ensures done_here { IfOk result (λ command. here command ≡ Some command) }
    ensures usage { IsErrOf result WordFault.Usage → command_here (map string_bytes words.now) ≡ None }
{
    let command = read_words(alloc, words)?;
    here(command)
}

/// A command, where it is done over links.
fn linked(command: Command) -> Result<Command, WordFault>
    requires { IsCommand command }
    ensures exact { Finds result (linked command) }
    ensures rules { IfOk result (λ found. IsCommand found) }
    ensures done_over { IfOk result (λ found. linked found ≡ Some found) }
{
    match command {
        Command::ForceWith {
            links,
            setup,
            report,
            items,
        } => Ok(Command::ForceWith {
            links,
            setup,
            report,
            items,
        }),
        _ => Err(WordFault::Usage),
    }
}

/// The command that some words are for a call over links.
#[tactic(auto, unfolding(crate::specs::Words::command_linked))]
pub(crate) fn read_over(alloc: Global, words: &[String]) -> Result<Command, WordFault>
    ensures exact { Finds result (command_linked (map string_bytes words.now)) }
    ensures found { IfOk result (λ command. command_linked (map string_bytes words.now) ≡ Some command) }
    ensures rules { IfOk result (λ command. IsCommand command) }
    ensures done_over { IfOk result (λ command. linked command ≡ Some command) }
    ensures usage { IsErrOf result WordFault.Usage → command_linked (map string_bytes words.now) ≡ None }
{
    let command = read_words(alloc, words)?;
    linked(command)
}
