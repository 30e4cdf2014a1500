//! Commands with a stop.

ghost use Rattle.std.specs.Prelude.{◌≡◌, ◌+◌, ◌≤◌, ◌<◌, ◌^◌, length, IsTrue, IfOk};
ghost use Rattle.std.specs.List.{AllByRecursion};
ghost use Rattle.thunk_codec.specs.Path.{is_path};
ghost use Rattle.model_gcc.specs.Checks.{max_operands};
ghost use Rattle.model_gcc.specs.Operands.{IsOperand};
ghost use Rattle.model_gcc.specs.PlanOf.{file_path, nothing_made, with_file, with_operand, with_operands};

use crate::gcc_plan::{GccPlan, Operand};
use crate::operand_steps::{last_number, with_steps_of};
use crate::outputs::file_output;
use build_plan::{Plan, Target};
use object_name::Many;
use std::alloc::{AllocError, Global};
use thunk_codec::Path;

/// No step and no target.
fn nothing_made(alloc: Global) -> Plan
    ensures { result ≡ nothing_made }
{
    Plan {
        steps: Many::new(alloc),
        targets: Many::new(alloc),
    }
}

/// With what is made of a file.
fn with_file(
    alloc: Global,
    plan: &GccPlan,
    operand: &Operand,
    path: &Path,
    made: Plan,
) -> Result<Plan, AllocError>
    requires few { length made.steps + 3 < 2 ^ 32 }
    requires operand { IsOperand operand.now }
    requires path { IsTrue (is_path path.now) }
    ensures { IfOk result (λ more. more ≡ with_file plan.now operand.now path.now made) }
{
    let Plan { steps, mut targets } = made;
    let target = file_output(alloc, plan, path)?;
    let steps = with_steps_of(alloc, plan, &target, steps, operand)?;
    let step = last_number(&steps);
    targets.push(Target::Keep { path: target, step })?;
    Ok(Plan { steps, targets })
}

/// With what is made of an operand, if it is a file.
fn with_operand(
    alloc: Global,
    plan: &GccPlan,
    operand: &Operand,
    made: Plan,
) -> Result<Plan, AllocError>
    requires few { length made.steps + 3 < 2 ^ 32 }
    requires operand { IsOperand operand.now }
    ensures { IfOk result (λ more. more ≡ with_operand plan.now operand.now (file_path operand.now) made) }
{
    match operand {
        Operand::Source(path) => with_file(alloc, plan, operand, path, made),
        Operand::Preprocessed(path) => with_file(alloc, plan, operand, path, made),
        Operand::Assembly(path) => with_file(alloc, plan, operand, path, made),
        Operand::AssemblySource(path) => with_file(alloc, plan, operand, path, made),
        Operand::Other(path) => with_file(alloc, plan, operand, path, made),
        Operand::Library(_) => Ok(made),
    }
}

/// The plan of a command with a stop.
pub(crate) fn stop(alloc: Global, plan: &GccPlan) -> Result<Plan, AllocError>
    requires few { length plan.now.operands ≤ max_operands }
    requires operands { AllByRecursion IsOperand plan.now.operands }
    ensures { IfOk result (λ made. made ≡ with_operands plan.now plan.now.operands nothing_made) }
{
    let mut made = nothing_made(alloc);
    let mut rest = plan.operands.as_slice();
    'operands: while let [operand, others @ ..] = rest {
        let more = with_operand(alloc, plan, operand, made)?;
        made = more;
        rest = others;
    }
    Ok(made)
}
