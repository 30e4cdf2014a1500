//! The words of `force` over links.

ghost use Rattle.std.specs.Prelude.{◌≡◌, map, string_bytes, IfOk, IfSome};
ghost use Rattle.gg_cli.specs.LinkedWords.{
  address_added,
  choice_of,
  copies_of,
  has_links,
  linked_force_of,
  linked_from,
  linked_items,
  one_worker,
  reported,
  with_number,
  AreWithin,
};
ghost use Rattle.gg_cli.specs.Words.{IsCommand};
ghost use Rattle.gg_cli.specs.Reading.{Finds};

use crate::command::{Command, DEFAULT_RETRIES, LinkChoice};
use crate::force_words::{DEFAULT_BUDGET, MAX_ITEMS, Options, fill, with_option};
use crate::item_words::read_each;
use crate::number_words::read_within;
use crate::word_fault::WordFault;
use crate::worker_words::read_address;
use force_pool::Setup;
use object_name::{Bytes, Many};
use std::alloc::Global;

/// The most links.
const MAX_LINKS: u32 = 64;

/// The most leases of one job that may be out at a time.
const MAX_COPIES: u32 = 4;

/// How many they may be where no number is given.
const DEFAULT_COPIES: u32 = 2;

/// The options that are given beside the links: a slot for each.
#[derive(Clone, Copy, Debug, PartialEq, Eq)]
struct LinkedOptions {
    /// Those that `force` has without links too.
    shared: Options,
    /// How many leases of one job may be out at a time.
    copies: Option<u32>,
    /// Whether the report is wanted.
    report: bool,
}

/// Whether the words after `force` begin with a mode of links.
pub(crate) fn begins_with_links(words: &[String]) -> bool
    ensures { result ≡ has_links (map string_bytes words.now) }
{
    let Some((first, _)) = words.split_first() else {
        return false;
    };
    if first.as_bytes() == b"--jobs".as_slice() {
        return true;
    }
    first.as_bytes() == b"--worker".as_slice()
}

/// One worker, at the address that a word is.
fn one_worker(alloc: Global, word: &[u8]) -> Result<LinkChoice, WordFault>
    ensures { Finds result (one_worker word.now) }
{
    let address = read_address(alloc, word)?;
    let mut addresses = Many::new(alloc);
    addresses.push(address)?;
    Ok(LinkChoice::Workers(addresses))
}

/// The links that a mode and its value give.
fn read_choice(alloc: Global, word: &[u8], value: &[u8]) -> Result<LinkChoice, WordFault>
    ensures { Finds result (choice_of word.now value.now) }
{
    if word == b"--jobs".as_slice() {
        return match read_within(value, 1, MAX_LINKS) {
            Some(count) => Ok(LinkChoice::Jobs(count)),
            None => Err(WordFault::Usage),
        };
    }
    if word == b"--worker".as_slice() {
        return one_worker(alloc, value);
    }
    Err(WordFault::Usage)
}

/// The links with a worker more, where they are workers.
fn with_worker(alloc: Global, links: LinkChoice, word: &[u8]) -> Result<LinkChoice, WordFault>
    ensures { Finds result (address_added links word.now) }
{
    match links {
        LinkChoice::Jobs(_) => Err(WordFault::Usage),
        LinkChoice::Workers(mut addresses) => {
            if addresses.len() >= MAX_LINKS as usize {
                return Err(WordFault::Usage);
            }
            let address = read_address(alloc, word)?;
            addresses.push(address)?;
            Ok(LinkChoice::Workers(addresses))
        }
    }
}

/// The options with the report wanted, where it wasn't yet.
fn with_report(given: LinkedOptions) -> Result<LinkedOptions, WordFault>
    ensures exact { Finds result (reported given) }
    ensures within { AreWithin given → IfOk result AreWithin }
{
    if given.report {
        return Err(WordFault::Usage);
    }
    Ok(LinkedOptions {
        report: true,
        ..given
    })
}

/// The number of copies that a word gives.
fn read_copies(word: &[u8]) -> Option<u32>
    ensures { result ≡ copies_of word.now }
{
    read_within(word, 1, MAX_COPIES)
}

/// The options with one more, where `word` names an option whose slot is empty and `value` is a number for it.
fn with_number(given: LinkedOptions, word: &[u8], value: &[u8]) -> Option<LinkedOptions>
    ensures exact { result ≡ with_number given word.now value.now }
    ensures within { AreWithin given → IfSome result AreWithin }
{
    if word == b"--copies".as_slice() {
        let copies = Some(fill(given.copies, read_copies(value))?);
        return Some(LinkedOptions { copies, ..given });
    }
    let shared = with_option(given.shared, word, value)?;
    Some(LinkedOptions { shared, ..given })
}

/// The command that forces the items that some words are over these links, with these options.
fn read_linked_items(
    alloc: Global,
    links: LinkChoice,
    given: LinkedOptions,
    words: &[String],
) -> Result<Command, WordFault>
    requires { AreWithin given }
    ensures exact { Finds result (linked_items links given (map string_bytes words.now)) }
    ensures rules { IfOk result IsCommand }
{
    if words.is_empty() {
        return Err(WordFault::Usage);
    }
    if words.len() > MAX_ITEMS {
        return Err(WordFault::Usage);
    }
    let items = read_each(alloc, words)?;
    let setup = Setup {
        budget: given.shared.budget.unwrap_or(DEFAULT_BUDGET),
        retries: given.shared.retries.unwrap_or(DEFAULT_RETRIES),
        copies: given.copies.unwrap_or(DEFAULT_COPIES),
    };
    Ok(Command::ForceWith {
        links,
        setup,
        report: given.report,
        items,
    })
}

/// The command by options in any order, beside those given, and items.
#[tactic(auto, unfolding(crate::specs::LinkedWords::linked_from))]
fn read_from(
    alloc: Global,
    links: LinkChoice,
    given: LinkedOptions,
    words: &[String],
) -> Result<Command, WordFault>
    requires { AreWithin given }
    ensures exact { Finds result (linked_from links given (map string_bytes words.now)) }
    ensures rules { IfOk result IsCommand }
{
    let Some((word, behind)) = words.split_first() else {
        return Err(WordFault::Usage);
    };
    let Some((value, rest)) = behind.split_first() else {
        return read_linked_items(alloc, links, given, words);
    };
    if word.as_bytes() == b"--report".as_slice() {
        let more = with_report(given)?;
        return read_from(alloc, links, more, behind);
    }
    if word.as_bytes() == b"--worker".as_slice() {
        let more = with_worker(alloc, links, value.as_bytes())?;
        return read_from(alloc, more, given, rest);
    }
    match with_number(given, word.as_bytes(), value.as_bytes()) {
        Some(more) => read_from(alloc, links, more, rest),
        None => read_linked_items(alloc, links, given, words),
    }
}

/// The command by what follows `force`, which begins with a mode of links.
pub(crate) fn read_linked(alloc: Global, words: &[String]) -> Result<Command, WordFault>
    ensures exact { Finds result (linked_force_of (map string_bytes words.now)) }
    ensures rules { IfOk result IsCommand }
{
    let Some((word, behind)) = words.split_first() else {
        return Err(WordFault::Usage);
    };
    let Some((value, rest)) = behind.split_first() else {
        return Err(WordFault::Usage);
    };
    let links = read_choice(alloc, word.as_bytes(), value.as_bytes())?;
    let given = LinkedOptions {
        shared: Options {
            budget: None,
            retries: None,
        },
        copies: None,
        report: false,
    };
    read_from(alloc, links, given, rest)
}
