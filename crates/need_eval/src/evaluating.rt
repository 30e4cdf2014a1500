//! Evaluation on one thread.

ghost use Rattle.std.specs.Prelude.{◌≡◌, ◌≤◌, IfOk, IfErr, IfSome, IsSome};
ghost use Rattle.std.specs.List.{AllByRecursion};
ghost use Rattle.thunk_codec.specs.Outcome.{Fits};
ghost use Rattle.thunk_codec.specs.Reference.{IsRef};
ghost use Rattle.object_name.specs.Causes.{Rose, RoseBy};
ghost use Rattle.blob_store.specs.Keeping.{kept};
ghost use Rattle.object_name.specs.Causes.{TriesAtMost};
ghost use Rattle.need_eval.specs.Evaluating.{EvaluatesAll, EvaluatesSome, EvaluatesInFull};
ghost use Rattle.need_eval.specs.WritePrefix.{EvalCause, ClashShows};
ghost use Rattle.need_eval.specs.StepContracts.{RunCause, keeper_failures};
ghost use Rattle.need_eval.specs.Walking.{blocked_at};

use crate::fault::EvalFault;
use crate::walker::{Walked, Walker};
use blob_store::Keeper;
use object_name::{Many, Name, Trouble};
use std::alloc::Global;
use thunk_codec::{Job, Outcome, Ref, Runner};

/// The values of references, in order, and the steps that they took.
#[derive(Debug, Drop)]
pub struct Values {
    pub names: Many<Name>,
    pub steps: u32,
}

/// The values of references, in order, by need. The budget is the greatest number of steps, which they share; a failed call of
/// the keeper is tried again, `retries` times at most.
pub fn evaluate<K: Keeper, R: Runner>(
    alloc: Global,
    keeper: &mut K,
    refs: Many<Ref>,
    budget: u32,
    retries: u32,
    runner: &mut R,
) -> Result<Values, EvalFault>
    requires { AllByRecursion IsRef refs }
    // Where the jobs are told, it is the evaluation with the runner's function, or stops at a fault after a prefix of its writes.
    // Each write was put once, in order: those that were answered Ok are the evaluation's, or a prefix of them.
    ensures exact { K.tells → EvaluatesAll R.tells R.outcome budget refs (kept K.store K.writes keeper.old) (kept K.store K.writes keeper.new) result }
    // Where they aren't, there are outcomes that fit them for which it is so.
    ensures some { K.tells → EvaluatesSome R.tells R.outcome budget refs (kept K.store K.writes keeper.old) (kept K.store K.writes keeper.new) result }
    ensures kept_later { K.faults keeper.old ≤ K.faults keeper.new }
    ensures run_later { R.faults runner.old ≤ R.faults runner.new }
    ensures cause { EvalCause retries (K.faults keeper.old) (K.faults keeper.new) (R.faults runner.old) (R.faults runner.new) result }
    // Of the keeper's calls no more failed than the retries allow.
    ensures tries { K.tells → TriesAtMost retries K.calls K.faults keeper.old keeper.new (keeper_failures result) }
    ensures clash { ClashShows result }
    // Where no fault has a cause and no two objects that are met have one name, the answer is the definition's or out of memory.
    ensures undisturbed { K.tells → (RoseBy retries (K.faults keeper.old) (K.faults keeper.new) → ⊥) → (Rose (R.faults runner.old) (R.faults runner.new) → ⊥) →
        EvaluatesInFull R.tells R.outcome budget refs (kept K.store K.writes keeper.old) (kept K.store K.writes keeper.new) result }
{
    let mut walker = Walker::new(alloc, refs, budget, retries)?;
    'walk: loop {
        match walker.advance(alloc, keeper)? {
            Walked::Ended(values) => return Ok(values),
            Walked::Blocked => {}
        }
        let outcome = run_blocked(alloc, &walker, runner)?;
        walker.supply(alloc, keeper, outcome)?;
    }
}

/// The outcome of the job that a walker waits for.
fn run_blocked<R: Runner>(
    alloc: Global,
    walker: &Walker,
    runner: &mut R,
) -> Result<Outcome, EvalFault>
    requires { IsSome (blocked_at walker.now) }
    ensures fits { IfOk result (λ outcome. IfSome (blocked_at walker.now) (λ prepared. Fits prepared.job outcome)) }
    ensures told { IfOk result (λ outcome. IfSome (blocked_at walker.now) (λ prepared. R.tells prepared.job → outcome ≡ R.outcome prepared.job)) }
    ensures later { R.faults runner.old ≤ R.faults runner.new }
    ensures cause { IfErr result (RunCause (R.faults runner.old) (R.faults runner.new)) }
{
    match walker.blocked() {
        Some(prepared) => run(alloc, runner, &prepared.job),
        None => unreachable!(),
    }
}

/// The outcome of a job.
fn run<R: Runner>(alloc: Global, runner: &mut R, job: &Job) -> Result<Outcome, EvalFault>
    ensures fits { IfOk result (λ outcome. Fits job.now outcome) }
    ensures told { R.tells job.now → IfOk result (λ outcome. outcome ≡ R.outcome job.now) }
    ensures later { R.faults runner.old ≤ R.faults runner.new }
    ensures cause { IfErr result (RunCause (R.faults runner.old) (R.faults runner.new)) }
{
    match runner.run(alloc, job) {
        Ok(outcome) => Ok(outcome),
        Err(Trouble::Failed) => Err(EvalFault::RunFailed),
        Err(Trouble::Memory) => Err(EvalFault::Memory),
    }
}
