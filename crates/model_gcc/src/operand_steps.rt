//! The steps of operands, after those of the operands before them.

ghost use Rattle.std.specs.Prelude.{◌≡◌, ◌+◌, ◌<◌, ◌^◌, ◌++◌, ◌∷◌, [], length, IfOk};
ghost use Rattle.model_gcc.specs.PlanOf.{last_number};
ghost use Rattle.model_gcc.specs.Operands.{IsOperand};
ghost use Rattle.model_gcc.specs.Stages.{compile, assemble, assembling, compiling, linking, steps_of};

use crate::gcc_plan::{GccPlan, Operand, Stop};
use crate::libraries::find_library;
use crate::stages::{assemble, compile, preprocess};
use build_plan::{Source, Step};
use object_name::{Many, TryCopy};
use std::alloc::{AllocError, Global};
use thunk_codec::Path;

/// The number of the next step.
pub(crate) fn next_number(steps: &Many<Step>) -> u32
    requires { length steps.now < 2 ^ 32 }
    ensures { result ≡ length steps.now }
{
    steps.len() as u32
}

/// The number of the last of some steps.
pub(crate) fn last_number(steps: &Many<Step>) -> u32
    requires { length steps.now < 2 ^ 32 }
    ensures { result ≡ last_number steps.now }
{
    next_number(steps).saturating_sub(1)
}

/// What is left to do with an assembler text.
fn with_assembling(
    alloc: Global,
    plan: &GccPlan,
    target: &Path,
    mut steps: Many<Step>,
    input: Source,
) -> Result<Many<Step>, AllocError>
    ensures { IfOk result (λ more. more ≡ steps ++ assembling plan.now target.now plan.now.stop input) }
{
    match plan.stop {
        Stop::Preprocess => {}
        Stop::Compile => {}
        Stop::Assemble => steps.push(assemble(alloc, target, input)?)?,
        Stop::Link => steps.push(assemble(alloc, target, input)?)?,
    }
    Ok(steps)
}

/// The compiler and the assembler.
fn with_both(
    alloc: Global,
    plan: &GccPlan,
    target: &Path,
    mut steps: Many<Step>,
    input: Source,
) -> Result<Many<Step>, AllocError>
    requires { length steps < 2 ^ 32 }
    ensures { IfOk result (λ more. more ≡ steps ++ compile plan.now target.now input ∷ assemble plan.now target.now (Source.Made (length steps)) ∷ []) }
{
    let number = next_number(&steps);
    steps.push(compile(alloc, plan, target, input)?)?;
    steps.push(assemble(alloc, target, Source::Made(number))?)?;
    Ok(steps)
}

/// What is left to do with a preprocessed text.
fn with_compiling(
    alloc: Global,
    plan: &GccPlan,
    target: &Path,
    mut steps: Many<Step>,
    input: Source,
) -> Result<Many<Step>, AllocError>
    requires { length steps < 2 ^ 32 }
    ensures { IfOk result (λ more. more ≡ steps ++ compiling plan.now target.now plan.now.stop (length steps) input) }
{
    match plan.stop {
        Stop::Preprocess => Ok(steps),
        Stop::Compile => {
            steps.push(compile(alloc, plan, target, input)?)?;
            Ok(steps)
        }
        Stop::Assemble => with_both(alloc, plan, target, steps, input),
        Stop::Link => with_both(alloc, plan, target, steps, input),
    }
}

/// What a link alone gathers.
fn with_linking(
    plan: &GccPlan,
    target: &Path,
    mut steps: Many<Step>,
    step: Step,
) -> Result<Many<Step>, AllocError>
    ensures { IfOk result (λ more. more ≡ steps ++ linking plan.now target.now plan.now.stop step) }
{
    match plan.stop {
        Stop::Preprocess => {}
        Stop::Compile => {}
        Stop::Assemble => {}
        Stop::Link => steps.push(step)?,
    }
    Ok(steps)
}

/// The steps of an operand.
pub(crate) fn with_steps_of(
    alloc: Global,
    plan: &GccPlan,
    target: &Path,
    mut steps: Many<Step>,
    operand: &Operand,
) -> Result<Many<Step>, AllocError>
    requires few { length steps + 1 < 2 ^ 32 }
    requires operand { IsOperand operand.now }
    ensures { IfOk result (λ more. more ≡ steps ++ steps_of plan.now target.now (length steps) operand.now) }
{
    let number = next_number(&steps);
    match operand {
        Operand::Source(path) => {
            steps.push(preprocess(alloc, plan, target, path)?)?;
            with_compiling(alloc, plan, target, steps, Source::Made(number))
        }
        Operand::AssemblySource(path) => {
            steps.push(preprocess(alloc, plan, target, path)?)?;
            with_assembling(alloc, plan, target, steps, Source::Made(number))
        }
        Operand::Preprocessed(path) => {
            let input = Source::File(path.copy(alloc)?);
            with_compiling(alloc, plan, target, steps, input)
        }
        Operand::Assembly(path) => {
            let input = Source::File(path.copy(alloc)?);
            with_assembling(alloc, plan, target, steps, input)
        }
        Operand::Other(path) => {
            let step = Step::Read(path.copy(alloc)?);
            with_linking(plan, target, steps, step)
        }
        Operand::Library(name) => {
            let step = find_library(alloc, plan.lib_folders.as_slice(), name.as_slice())?;
            with_linking(plan, target, steps, step)
        }
    }
}
