//! Places of a command's words, counted from 0, and the refusals at them.

ghost use Rattle.std.specs.Prelude.{◌≡◌};
ghost use Rattle.file_tree.specs.Planning.{place_after};

use crate::model_fault::{PlanFault, Reason};

/// The place after one. A place that would pass 4,294,967,295 is that.
pub fn place_after(at: u32) -> u32
    ensures { result ≡ place_after at }
{
    at.saturating_add(1)
}

/// The word at a place is refused.
pub fn refused_at(at: u32, reason: Reason) -> PlanFault
    ensures { result ≡ PlanFault.Refused at reason }
{
    PlanFault::Refused { at, reason }
}
