//! The words of `cp`, `mv` and `rm`, which change files alone.

ghost use Rattle.std.specs.Prelude.{◌≡◌};
ghost use Rattle.file_tree.specs.Planning.{Finds};
ghost use Rattle.model_binutils.specs.Plan.{two_paths, copy_plan, move_plan, remove_plan};

use crate::bin_plan::BinPlan;
use crate::operand::Operand;
use crate::words::{after_first, first_path, no_word, operands_from};
use file_tree::{PlanFault, Reason, refused_at};
use object_name::Bytes;
use std::alloc::Global;
use thunk_codec::Path;

/// Two paths that differ, and no other word.
#[tactic(auto, unfolding(crate::specs::Plan::two_paths))]
fn two_paths(alloc: Global, words: &[Bytes]) -> Result<(Path, Path), PlanFault>
    ensures { Finds result (two_paths words.now) }
{
    let others = after_first(words);
    let from = first_path(alloc, 1, words)?;
    let to = first_path(alloc, 2, others)?;
    if from.text() == to.text() {
        return Err(refused_at(2, Reason::Same));
    }
    if let Some(fault) = no_word(3, after_first(others)) {
        return Err(fault);
    }
    Ok((from, to))
}

/// The words of `cp` after the first.
pub(crate) fn copy_plan(alloc: Global, words: &[Bytes]) -> Result<BinPlan, PlanFault>
    ensures { Finds result (copy_plan words.now) }
{
    let (from, to) = two_paths(alloc, words)?;
    Ok(BinPlan::Copy { from, to })
}

/// The words of `mv` after the first.
pub(crate) fn move_plan(alloc: Global, words: &[Bytes]) -> Result<BinPlan, PlanFault>
    ensures { Finds result (move_plan words.now) }
{
    let (from, to) = two_paths(alloc, words)?;
    Ok(BinPlan::Move { from, to })
}

/// The words of `rm` after the first.
#[tactic(auto, unfolding(crate::specs::Plan::remove_plan))]
pub(crate) fn remove_plan(alloc: Global, words: &[Bytes]) -> Result<BinPlan, PlanFault>
    ensures { Finds result (remove_plan words.now) }
{
    let Some((word, others)) = words.split_first() else {
        return Err(refused_at(1, Reason::NoValue));
    };
    if word.as_slice() != b"-f".as_slice() {
        return Err(refused_at(1, Reason::Unknown));
    }
    let paths = operands_from(alloc, Operand::File, 2, others)?;
    Ok(BinPlan::Remove(paths))
}
