//! The words of `ar` and `ranlib`.

ghost use Rattle.std.specs.Prelude.{◌≡◌};
ghost use Rattle.std.specs.List.{list_all};
ghost use Rattle.file_tree.specs.Planning.{Finds};
ghost use Rattle.model_binutils.specs.Plan.{letters_of, is_letter, has_replace, has_table, are_letters, insertion_plan, table_plan, archive_plan, ar_plan, ranlib_path, ranlib_plan};

use crate::bin_plan::BinPlan;
use crate::operand::Operand;
use crate::words::{after_first, first_path, is_option, one_path, operands_from};
use file_tree::{PlanFault, Reason, refused_at};
use object_name::{Bytes, Many};
use std::alloc::Global;
use thunk_codec::Path;

/// The letters of a word, which may stand behind a `-`.
fn letters_of(word: &[u8]) -> &[u8]
    ensures { result.now ≡ letters_of word.now }
{
    if is_option(word) { &word[1..] } else { word }
}

/// Whether a byte is a letter that says something.
fn is_letter(byte: u8) -> bool
    ensures { result ≡ is_letter byte }
{
    byte == b'r' || byte == b's' || byte == b'c' || byte == b'D' || byte == b'v'
}

/// Whether all bytes are such letters.
fn all_letters(letters: &[u8]) -> bool
    ensures { result ≡ list_all is_letter letters.now }
{
    letters.iter().all(|byte| is_letter(*byte))
}

/// Whether members are to be put in.
fn has_replace(letters: &[u8]) -> bool
    ensures { result ≡ has_replace letters.now }
{
    letters.iter().any(|letter| *letter == b'r')
}

/// Whether there is to be a table of symbols.
fn has_table(letters: &[u8]) -> bool
    ensures { result ≡ has_table letters.now }
{
    letters.iter().any(|letter| *letter == b's')
}

/// Whether letters ask for something.
#[tactic(auto, unfolding(crate::specs::Plan::are_letters))]
fn are_letters(letters: &[u8]) -> bool
    ensures { result ≡ are_letters letters.now }
{
    if !all_letters(letters) {
        return false;
    }
    has_replace(letters) || has_table(letters)
}

/// The archive, and one member or more.
#[tactic(auto, unfolding(crate::specs::Plan::insertion_plan))]
fn insertion_plan(alloc: Global, table: bool, words: &[Bytes]) -> Result<BinPlan, PlanFault>
    ensures { Finds result (insertion_plan table words.now) }
{
    let archive = first_path(alloc, 2, words)?;
    let members = operands_from(alloc, Operand::Member, 3, after_first(words))?;
    Ok(BinPlan::Ar {
        replace: true,
        table,
        archive,
        members,
    })
}

/// The archive alone.
fn table_plan(alloc: Global, words: &[Bytes]) -> Result<BinPlan, PlanFault>
    ensures { Finds result (table_plan words.now) }
{
    let archive = one_path(alloc, 2, words)?;
    Ok(BinPlan::Ar {
        replace: false,
        table: true,
        archive,
        members: Many::new(alloc),
    })
}

/// What stands after the letters.
fn archive_plan(alloc: Global, letters: &[u8], words: &[Bytes]) -> Result<BinPlan, PlanFault>
    ensures { Finds result (archive_plan letters.now words.now) }
{
    if has_replace(letters) {
        return insertion_plan(alloc, has_table(letters), words);
    }
    table_plan(alloc, words)
}

/// The words of `ar` after the first.
#[tactic(auto, unfolding(crate::specs::Plan::ar_plan))]
pub(crate) fn ar_plan(alloc: Global, words: &[Bytes]) -> Result<BinPlan, PlanFault>
    ensures { Finds result (ar_plan words.now) }
{
    let Some((word, others)) = words.split_first() else {
        return Err(refused_at(1, Reason::NoValue));
    };
    let letters = letters_of(word.as_slice());
    if !are_letters(letters) {
        return Err(refused_at(1, Reason::Unknown));
    }
    archive_plan(alloc, letters, others)
}

/// The archive of `ranlib`.
fn ranlib_path(alloc: Global, words: &[Bytes]) -> Result<Path, PlanFault>
    ensures { Finds result (ranlib_path words.now) }
{
    let Some((word, others)) = words.split_first() else {
        return one_path(alloc, 1, words);
    };
    if word.as_slice() == b"-D".as_slice() {
        return one_path(alloc, 2, others);
    }
    one_path(alloc, 1, words)
}

/// The words of `ranlib` after the first.
pub(crate) fn ranlib_plan(alloc: Global, words: &[Bytes]) -> Result<BinPlan, PlanFault>
    ensures { Finds result (ranlib_plan words.now) }
{
    Ok(BinPlan::Ranlib(ranlib_path(alloc, words)?))
}
