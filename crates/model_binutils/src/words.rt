//! Words of a command, each at its place.

ghost use Rattle.std.specs.Prelude.{◌≡◌, [], drop, IfOk};
ghost use Rattle.file_tree.specs.Planning.{Finds};
ghost use Rattle.model_binutils.specs.Words.{is_option, path_at, operand_at, first_path, no_word, one_path, operands_after, operands_from};

use crate::operand::Operand;
use file_tree::{PlanFault, Reason, place_after, refused_at};
use object_name::{Bytes, Many};
use std::alloc::Global;
use thunk_codec::Path;
use tool_bin::is_member_name;

/// The words after the first.
pub(crate) fn after_first(words: &[Bytes]) -> &[Bytes]
    ensures { result.now ≡ drop 1 words.now }
{
    match words.split_first() {
        Some((_, others)) => others,
        None => words,
    }
}

/// Whether a word is an option.
pub(crate) fn is_option(word: &[u8]) -> bool
    ensures { result ≡ is_option word.now }
{
    word.starts_with(b"-")
}

/// A word where a path is wanted.
#[tactic(auto, unfolding(crate::specs::Words::path_at))]
fn path_at(alloc: Global, at: u32, word: &[u8]) -> Result<Path, PlanFault>
    ensures { Finds result (path_at at word.now) }
{
    if is_option(word) {
        return Err(refused_at(at, Reason::Unknown));
    }
    let Some(path) = Path::read(alloc, word)? else {
        return Err(refused_at(at, Reason::BadValue));
    };
    Ok(path)
}

/// A word where a member is wanted.
fn member_at(alloc: Global, at: u32, word: &[u8]) -> Result<Path, PlanFault>
    ensures { Finds result (operand_at Operand.Member at word.now) }
{
    let path = path_at(alloc, at, word)?;
    if !is_member_name(path.last()) {
        return Err(refused_at(at, Reason::BadValue));
    }
    Ok(path)
}

/// A word where an operand is wanted.
fn operand_at(alloc: Global, wanted: Operand, at: u32, word: &[u8]) -> Result<Path, PlanFault>
    ensures { Finds result (operand_at wanted at word.now) }
{
    match wanted {
        Operand::File => path_at(alloc, at, word),
        Operand::Member => member_at(alloc, at, word),
    }
}

/// The first of some words, which is to be a path.
pub(crate) fn first_path(alloc: Global, at: u32, words: &[Bytes]) -> Result<Path, PlanFault>
    ensures { Finds result (first_path at words.now) }
{
    let Some((word, _)) = words.split_first() else {
        return Err(refused_at(at, Reason::NoValue));
    };
    path_at(alloc, at, word.as_slice())
}

/// The refusal of the first of some words, where none is wanted.
pub(crate) fn no_word(at: u32, words: &[Bytes]) -> Option<PlanFault>
    ensures { result ≡ no_word at words.now }
{
    match words.split_first() {
        Some(_) => Some(refused_at(at, Reason::Unknown)),
        None => None,
    }
}

/// One word, a path, and no other.
#[tactic(auto, unfolding(crate::specs::Words::one_path))]
pub(crate) fn one_path(alloc: Global, at: u32, words: &[Bytes]) -> Result<Path, PlanFault>
    ensures { Finds result (one_path at words.now) }
{
    let path = first_path(alloc, at, words)?;
    if let Some(fault) = no_word(place_after(at), after_first(words)) {
        return Err(fault);
    }
    Ok(path)
}

/// Words where operands are wanted.
fn operands(
    alloc: Global,
    wanted: Operand,
    at: u32,
    words: &[Bytes],
) -> Result<Many<Path>, PlanFault>
    ensures { Finds result (operands_after wanted [] at words.now) }
{
    let mut paths = Many::new(alloc);
    let mut place = at;
    let mut rest = words;
    'words: while let [word, others @ ..] = rest {
        let path = operand_at(alloc, wanted, place, word.as_slice())?;
        paths.push(path)?;
        place = place_after(place);
        rest = others;
    }
    Ok(paths)
}

/// One operand or more.
pub(crate) fn operands_from(
    alloc: Global,
    wanted: Operand,
    at: u32,
    words: &[Bytes],
) -> Result<Many<Path>, PlanFault>
    ensures { Finds result (operands_from wanted at words.now) }
{
    if words.is_empty() {
        return Err(refused_at(at, Reason::NoValue));
    }
    operands(alloc, wanted, at, words)
}
