//! Plans of command lines.

ghost use Rattle.std.specs.Prelude.{◌≡◌, Ok, Some, IfOk};
ghost use Rattle.file_tree.specs.Planning.{Finds};
ghost use Rattle.model_binutils.specs.Plan.{plan_by, plan_of};

use crate::ar_words::{ar_plan, ranlib_plan};
use crate::bin_plan::BinPlan;
use crate::command::{Command, command_of};
use crate::limits::limited;
use crate::strip_words::strip_plan;
use crate::tree_words::{copy_plan, move_plan, remove_plan};
use file_tree::{PlanFault, Reason, refused_at};
use object_name::Bytes;
use std::alloc::Global;

/// What a command asks for by the words after the first.
fn plan_by(alloc: Global, command: Command, words: &[Bytes]) -> Result<BinPlan, PlanFault>
    ensures { Finds result (plan_by (Some command) words.now) }
{
    match command {
        Command::Ar => ar_plan(alloc, words),
        Command::Ranlib => ranlib_plan(alloc, words),
        Command::Strip => strip_plan(alloc, words),
        Command::Copy => copy_plan(alloc, words),
        Command::Move => move_plan(alloc, words),
        Command::Remove => remove_plan(alloc, words),
        Command::Nothing => Ok(BinPlan::Nothing),
    }
}

/// What a command line asks for whose first word is `ar`, `ranlib`, `strip`, `cp`, `mv`, `rm`, `echo`,
/// `true`, `:` or `mkdir`; another first word is refused as unknown.
#[tactic(auto, unfolding(crate::specs::Plan::plan_of))]
pub fn plan(alloc: Global, words: &[Bytes]) -> Result<BinPlan, PlanFault>
    ensures exact { Finds result (plan_of words.now) }
    ensures found { IfOk result (λ plan. plan_of words.now ≡ Ok plan) }
{
    let Some((word, others)) = words.split_first() else {
        return Err(refused_at(0, Reason::NoValue));
    };
    let Some(command) = command_of(word.as_slice()) else {
        return Err(refused_at(0, Reason::Unknown));
    };
    let plan = plan_by(alloc, command, others)?;
    limited(plan)
}
