//! Plans of steps.

ghost use Rattle.std.specs.Prelude.{◌≡◌, IfOk};
ghost use Rattle.model_binutils.specs.PlanOf.{IsPlanned, archive_step, build_of, one_kept};

use crate::bin_plan::BinPlan;
use crate::insertion::insertion;
use crate::one_input::{ranlib_step, table_step};
use crate::stripping::strip;
use build_plan::{Plan, Step, Target};
use object_name::{Many, TryCopy};
use std::alloc::{AllocError, Global};
use thunk_codec::Path;

/// No step and no target.
fn no_plan(alloc: Global) -> Plan
    ensures { result ≡ build_of BinPlan.Nothing }
{
    Plan {
        steps: Many::new(alloc),
        targets: Many::new(alloc),
    }
}

/// One step, whose item a file gets.
fn one_kept(alloc: Global, step: Step, path: &Path) -> Result<Plan, AllocError>
    ensures { IfOk result (λ plan. plan ≡ one_kept step path.now) }
{
    let mut plan = no_plan(alloc);
    let path = path.copy(alloc)?;
    plan.steps.push(step)?;
    plan.targets.push(Target::Keep { path, step: 0 })?;
    Ok(plan)
}

/// The run of `ar`.
fn archive_step(
    alloc: Global,
    replace: bool,
    table: bool,
    archive: &Path,
    members: &[Path],
) -> Result<Step, AllocError>
    ensures { IfOk result (λ step. step ≡ archive_step replace table archive.now members.now) }
{
    if replace {
        return insertion(alloc, table, archive, members);
    }
    table_step(alloc, archive)
}

/// A file is copied.
fn copy(alloc: Global, from: &Path, to: &Path) -> Result<Plan, AllocError>
    ensures { IfOk result (λ plan. plan ≡ one_kept (Step.Take from.now) to.now) }
{
    let step = Step::Take(from.copy(alloc)?);
    one_kept(alloc, step, to)
}

/// A file is moved: what is at the first path is removed last.
fn moved(alloc: Global, from: &Path, to: &Path) -> Result<Plan, AllocError>
    ensures { IfOk result (λ plan. plan ≡ build_of (BinPlan.Move from.now to.now)) }
{
    let mut plan = copy(alloc, from, to)?;
    let from = from.copy(alloc)?;
    plan.targets.push(Target::Drop(from))?;
    Ok(plan)
}

/// Files are removed.
fn removal(alloc: Global, paths: &[Path]) -> Result<Plan, AllocError>
    ensures { IfOk result (λ plan. plan ≡ build_of (BinPlan.Remove paths.now)) }
{
    let mut targets = Many::new(alloc);
    let mut rest = paths;
    'paths: while let [path, others @ ..] = rest {
        targets.push(Target::Drop(path.copy(alloc)?))?;
        rest = others;
    }
    Ok(Plan {
        steps: Many::new(alloc),
        targets,
    })
}

/// What a command does, as a plan of steps.
pub fn build_of(alloc: Global, plan: &BinPlan) -> Result<Plan, AllocError>
    requires { IsPlanned plan.now }
    ensures { IfOk result (λ made. made ≡ build_of plan.now) }
{
    match plan {
        BinPlan::Ar {
            replace,
            table,
            archive,
            members,
        } => {
            let step = archive_step(alloc, *replace, *table, archive, members.as_slice())?;
            one_kept(alloc, step, archive)
        }
        BinPlan::Ranlib(archive) => {
            let step = ranlib_step(alloc, archive)?;
            one_kept(alloc, step, archive)
        }
        BinPlan::Strip { output, files } => strip(alloc, output, files.as_slice()),
        BinPlan::Copy { from, to } => copy(alloc, from, to),
        BinPlan::Move { from, to } => moved(alloc, from, to),
        BinPlan::Remove(paths) => removal(alloc, paths.as_slice()),
        BinPlan::Nothing => Ok(no_plan(alloc)),
    }
}
