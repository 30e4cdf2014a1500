//! The words of `strip`.

ghost use Rattle.std.specs.Prelude.{◌≡◌};
ghost use Rattle.file_tree.specs.Planning.{Finds};
ghost use Rattle.model_binutils.specs.Plan.{is_strip_option, strip_into, strip_in_place, strip_plan};

use crate::bin_plan::BinPlan;
use crate::operand::Operand;
use crate::words::{after_first, first_path, one_path, operands_from};
use file_tree::{PlanFault, place_after};
use object_name::{Bytes, Many};
use std::alloc::Global;

/// Whether a word is `-s` or `-g`.
fn is_strip_option(word: &[u8]) -> bool
    ensures { result ≡ is_strip_option word.now }
{
    word == b"-s".as_slice() || word == b"-g".as_slice()
}

/// What stands behind `-o`.
#[tactic(auto, unfolding(crate::specs::Plan::strip_into))]
fn strip_into(alloc: Global, at: u32, words: &[Bytes]) -> Result<BinPlan, PlanFault>
    ensures { Finds result (strip_into at words.now) }
{
    let output = first_path(alloc, at, words)?;
    let path = one_path(alloc, place_after(at), after_first(words))?;
    let mut files = Many::new(alloc);
    files.push(path)?;
    Ok(BinPlan::Strip {
        output: Some(output),
        files,
    })
}

/// Files that are stripped in their places.
fn strip_in_place(alloc: Global, at: u32, words: &[Bytes]) -> Result<BinPlan, PlanFault>
    ensures { Finds result (strip_in_place at words.now) }
{
    let files = operands_from(alloc, Operand::File, at, words)?;
    Ok(BinPlan::Strip {
        output: None,
        files,
    })
}

/// The words of `strip` after the first.
#[tactic(auto, unfolding(crate::specs::Plan::strip_plan))]
pub(crate) fn strip_plan(alloc: Global, words: &[Bytes]) -> Result<BinPlan, PlanFault>
    ensures { Finds result (strip_plan 1 words.now) }
{
    let mut at = 1;
    let mut rest = words;
    'words: while let [word, others @ ..] = rest {
        if !is_strip_option(word.as_slice()) {
            if word.as_slice() == b"-o".as_slice() {
                return strip_into(alloc, place_after(at), others);
            }
            return strip_in_place(alloc, at, rest);
        }
        at = place_after(at);
        rest = others;
    }
    strip_in_place(alloc, at, rest)
}
