//! Runs of tools.

ghost use Rattle.std.specs.Prelude.{◌≡◌, IfOk};
ghost use Rattle.object_name.specs.Kind.{kind_of};
ghost use Rattle.sandbox_run.specs.Cards.{card_outcome};
ghost use Rattle.build_plan.specs.Symbolic.{one_output};
ghost use Rattle.build_script.specs.AtOnce.{no_thunk, output_by, output_of};
ghost use Rattle.build_script.specs.WorkAtOnce.{Finds, failures, job_of, only_one};

use crate::run_fault::RunFault;
use build_plan::known_path;
use file_tree::FileRefusal;
use object_name::{Bytes, Kind, Many, TryCopy, kind_of};
use sandbox_run::Cards;
use std::alloc::{AllocError, Global};
use thunk_codec::{Job, Outcome, Path, Runner, card};

/// The name of the one output of a tool of a plan.
const OUTPUT: &[u8] = b"out";

/// The status of a tool that doesn't give one output.
const OTHER_OUTPUTS: u8 = 202;

/// The names of the outputs of a tool of a plan.
fn output_names(alloc: Global) -> Result<Many<Path>, AllocError>
    ensures { IfOk result (λ outputs. outputs ≡ one_output) }
{
    let mut outputs = Many::new(alloc);
    outputs.push(known_path(alloc, OUTPUT)?)?;
    Ok(outputs)
}

/// The job of a tool over some inputs.
fn job_of(
    alloc: Global,
    tool: &[u8],
    args: &Many<Bytes>,
    inputs: Many<(Path, Bytes)>,
) -> Result<Job, AllocError>
    ensures { IfOk result (λ job. job ≡ job_of tool.now args.now inputs) }
{
    let function = card(alloc, tool)?;
    let args = args.copy(alloc)?;
    let outputs = output_names(alloc)?;
    Ok(Job {
        function,
        args,
        envs: Many::new(alloc),
        inputs,
        outputs,
    })
}

/// What the tool of a job gives.
fn outcome_of(alloc: Global, job: &Job) -> Result<Outcome, AllocError>
    ensures { IfOk result (λ outcome. outcome ≡ card_outcome job.now) }
{
    match Cards.run(alloc, job) {
        Ok(outcome) => Ok(outcome),
        // The run of a card doesn't fail, so memory ran out.
        Err(_) => Err(AllocError),
    }
}

/// The one of some outputs.
fn only_one(outputs: Many<Bytes>) -> Option<Bytes>
    ensures { result ≡ only_one outputs }
{
    let Many(mut outputs) = outputs;
    let last = outputs.pop();
    if outputs.is_empty() { last } else { None }
}

/// Bytes that a tool gives, which are no thunk's.
fn no_thunk(alloc: Global, target: &Path, bytes: Bytes) -> Result<Bytes, RunFault>
    ensures exact { Finds (no_thunk target.now bytes (kind_of bytes)) result }
    ensures pure { failures result ≡ 0 }
{
    match kind_of(bytes.as_slice()) {
        Kind::Value => Ok(bytes),
        Kind::Thunk => Err(RunFault::Refused(FileRefusal::ThunkText(target.copy(alloc)?))),
    }
}

/// The one output of a tool, which is no thunk.
fn output_of(alloc: Global, target: &Path, outputs: Many<Bytes>) -> Result<Bytes, RunFault>
    ensures exact { Finds (output_of target.now outputs) result }
    ensures pure { failures result ≡ 0 }
{
    match only_one(outputs) {
        Some(bytes) => no_thunk(alloc, target, bytes),
        None => Err(RunFault::Tool(OTHER_OUTPUTS)),
    }
}

/// What a tool gives, or why work stops.
fn output_by(alloc: Global, target: &Path, outcome: Outcome) -> Result<Bytes, RunFault>
    ensures exact { Finds (output_by target.now outcome) result }
    ensures pure { failures result ≡ 0 }
{
    match outcome {
        Outcome::Done(outputs) => output_of(alloc, target, outputs),
        Outcome::Failed(status) => Err(RunFault::Tool(status)),
    }
}

/// Runs a tool over some inputs, and gives its output.
pub(crate) fn run_tool(
    alloc: Global,
    tool: &[u8],
    args: &Many<Bytes>,
    inputs: Many<(Path, Bytes)>,
    target: &Path,
) -> Result<Bytes, RunFault>
    ensures exact { Finds (output_by target.now (card_outcome (job_of tool.now args.now inputs))) result }
    ensures pure { failures result ≡ 0 }
{
    let job = job_of(alloc, tool, args, inputs)?;
    let outcome = outcome_of(alloc, &job)?;
    output_by(alloc, target, outcome)
}
