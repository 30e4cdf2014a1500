//! The most files of a command.

ghost use Rattle.std.specs.Prelude.{◌≡◌};
ghost use Rattle.file_tree.specs.Planning.{Finds};
ghost use Rattle.model_binutils.specs.Plan.{is_within, limited};

use crate::bin_plan::BinPlan;
use file_tree::{PlanFault, Reason, refused_at};

/// The most files.
const MAX_FILES: usize = 4096;

/// The most members: with the old archive they are the inputs of one thunk.
const MAX_MEMBERS: usize = 4095;

/// Whether there aren't too many files.
fn is_within(plan: &BinPlan) -> bool
    ensures { result ≡ is_within plan.now }
{
    match plan {
        BinPlan::Ar { members, .. } => members.len() <= MAX_MEMBERS,
        BinPlan::Ranlib(_) => true,
        BinPlan::Strip { files, .. } => files.len() <= MAX_FILES,
        BinPlan::Copy { .. } => true,
        BinPlan::Move { .. } => true,
        BinPlan::Remove(paths) => paths.len() <= MAX_FILES,
        BinPlan::Nothing => true,
    }
}

/// A plan, unless it has too many files.
#[tactic(auto, unfolding(crate::specs::Plan::limited))]
pub(crate) fn limited(plan: BinPlan) -> Result<BinPlan, PlanFault>
    ensures { Finds result (limited plan) }
{
    if !is_within(&plan) {
        return Err(refused_at(0, Reason::TooMany));
    }
    Ok(plan)
}
