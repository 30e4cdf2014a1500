//! Plans of steps.

ghost use Rattle.std.specs.Prelude.{◌≡◌, IfOk};
ghost use Rattle.model_gcc.specs.PlanOf.{IsPlanned, build_of};

use crate::gcc_plan::{GccPlan, Stop};
use crate::linking::link;
use crate::stopping::stop;
use build_plan::Plan;
use std::alloc::{AllocError, Global};

/// What a command of gcc does, as a plan of steps.
pub fn build_of(alloc: Global, plan: &GccPlan) -> Result<Plan, AllocError>
    requires { IsPlanned plan.now }
    ensures { IfOk result (λ made. made ≡ build_of plan.now) }
{
    match plan.stop {
        Stop::Preprocess => stop(alloc, plan),
        Stop::Compile => stop(alloc, plan),
        Stop::Assemble => stop(alloc, plan),
        Stop::Link => link(alloc, plan),
    }
}
