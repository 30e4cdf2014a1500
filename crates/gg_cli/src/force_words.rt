//! The words of `force`.

ghost use Rattle.std.specs.Prelude.{◌≡◌, map, string_bytes, IfOk};
ghost use Rattle.gg_cli.specs.ForceWords.{budget_of, retries_of, no_options, filled, with_option, options_of, force_items, without_local, force_of};
ghost use Rattle.gg_cli.specs.Words.{IsCommand};
ghost use Rattle.gg_cli.specs.Reading.{Finds};

use crate::command::{Command, DEFAULT_RETRIES};
use crate::item_words::read_each;
use crate::number_words::read_within;
use crate::word_fault::WordFault;
use std::alloc::Global;

/// The greatest number of steps where none is given.
pub(crate) const DEFAULT_BUDGET: u32 = 65_536;

/// The greatest number of steps that may be given.
const MAX_BUDGET: u32 = 1_048_576;

/// The most tries again that may be given.
const MAX_RETRIES: u32 = 16;

/// The most items of a command line.
pub(crate) const MAX_ITEMS: usize = 4_096;

/// The options that are given: a slot for each.
#[derive(Clone, Copy, Debug, PartialEq, Eq)]
pub(crate) struct Options {
    /// The greatest number of steps.
    pub budget: Option<u32>,
    /// How often a failed call is tried again.
    pub retries: Option<u32>,
}

/// The number of steps that a word gives.
fn read_budget(word: &[u8]) -> Option<u32>
    ensures { result ≡ budget_of word.now }
{
    read_within(word, 1, MAX_BUDGET)
}

/// The number of retries that a word gives.
fn read_retries(word: &[u8]) -> Option<u32>
    ensures { result ≡ retries_of word.now }
{
    read_within(word, 0, MAX_RETRIES)
}

/// The number for a slot: none where the slot is full already.
pub(crate) fn fill(slot: Option<u32>, number: Option<u32>) -> Option<u32>
    ensures { result ≡ filled slot number }
{
    match slot {
        Some(_) => None,
        None => number,
    }
}

/// The options with one more, where `word` names an option whose slot is empty and `value` is a number for it.
pub(crate) fn with_option(given: Options, word: &[u8], value: &[u8]) -> Option<Options>
    ensures { result ≡ with_option given word.now value.now }
{
    if word == b"--budget".as_slice() {
        let budget = Some(fill(given.budget, read_budget(value))?);
        return Some(Options { budget, ..given });
    }
    if word == b"--retries".as_slice() {
        let retries = Some(fill(given.retries, read_retries(value))?);
        return Some(Options { retries, ..given });
    }
    None
}

/// The options that some words begin with, and the words after them.
fn read_options(words: &[String]) -> (Options, &[String])
    ensures { (result.0, map string_bytes result.1.now) ≡ options_of no_options (map string_bytes words.now) }
{
    let mut given = Options {
        budget: None,
        retries: None,
    };
    let mut rest = words;
    'options: while let [word, value, after @ ..] = rest
        && let Some(more) = with_option(given, word.as_bytes(), value.as_bytes())
    {
        given = more;
        rest = after;
    }
    (given, rest)
}

/// The command that forces the items that some words are, with these options.
fn read_items(alloc: Global, given: Options, words: &[String]) -> Result<Command, WordFault>
    ensures exact { Finds result (force_items given (map string_bytes words.now)) }
    ensures rules { IfOk result (λ command. IsCommand command) }
{
    if words.is_empty() {
        return Err(WordFault::Usage);
    }
    if words.len() > MAX_ITEMS {
        return Err(WordFault::Usage);
    }
    let items = read_each(alloc, words)?;
    Ok(Command::Force {
        budget: given.budget.unwrap_or(DEFAULT_BUDGET),
        retries: given.retries.unwrap_or(DEFAULT_RETRIES),
        items,
    })
}

/// The words, but for a `--local` that they begin with.
fn skip_local(words: &[String]) -> &[String]
    ensures { map string_bytes result.now ≡ without_local (map string_bytes words.now) }
{
    match words.split_first() {
        Some((first, others)) if first.as_bytes() == b"--local".as_slice() => others,
        _ => words,
    }
}

/// The command by what follows `force`.
pub(crate) fn read_force(alloc: Global, words: &[String]) -> Result<Command, WordFault>
    ensures exact { Finds result (force_of (map string_bytes words.now)) }
    ensures rules { IfOk result (λ command. IsCommand command) }
{
    let (given, items) = read_options(skip_local(words));
    read_items(alloc, given, items)
}
