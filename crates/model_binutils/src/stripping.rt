//! Plans of `strip`.

ghost use Rattle.std.specs.Prelude.{◌≡◌, ◌≤◌, map, length, IfOk};
ghost use Rattle.model_binutils.specs.Plan.{max_files};
ghost use Rattle.model_binutils.specs.PlanOf.{strip_step, strip_targets};

use crate::one_input::{strip_step, stripped_path};
use build_plan::{Plan, Step, Target};
use object_name::Many;
use std::alloc::{AllocError, Global};
use thunk_codec::Path;

/// The run of `strip` over each file.
fn strip_steps(
    alloc: Global,
    output: &Option<Path>,
    files: &[Path],
) -> Result<Many<Step>, AllocError>
    ensures { IfOk result (λ steps. steps ≡ map (strip_step output.now) files.now) }
{
    let mut steps = Many::new(alloc);
    let mut rest = files;
    'files: while let [path, others @ ..] = rest {
        steps.push(strip_step(alloc, output, path)?)?;
        rest = others;
    }
    Ok(steps)
}

/// Where each stripped file goes.
fn strip_targets(
    alloc: Global,
    output: &Option<Path>,
    files: &[Path],
) -> Result<Many<Target>, AllocError>
    requires { length files.now ≤ max_files }
    ensures { IfOk result (λ targets. targets ≡ strip_targets output.now 0 files.now) }
{
    let mut targets = Many::new(alloc);
    let mut step = 0u32;
    let mut rest = files;
    'files: while let [path, others @ ..] = rest {
        let path = stripped_path(alloc, output, path)?;
        targets.push(Target::Keep { path, step })?;
        step += 1;
        rest = others;
    }
    Ok(targets)
}

/// The plan of `strip`.
pub(crate) fn strip(
    alloc: Global,
    output: &Option<Path>,
    files: &[Path],
) -> Result<Plan, AllocError>
    requires { length files.now ≤ max_files }
    ensures { IfOk result (λ plan. plan ≡ record { steps = map (strip_step output.now) files.now; targets = strip_targets output.now 0 files.now }) }
{
    let steps = strip_steps(alloc, output, files)?;
    let targets = strip_targets(alloc, output, files)?;
    Ok(Plan { steps, targets })
}
