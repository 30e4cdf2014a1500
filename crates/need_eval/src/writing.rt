//! What an evaluation writes.

ghost use Rattle.std.specs.Prelude.{◌≡◌, ◌≤◌, length, sum_by, IfOk};
ghost use Rattle.object_name.specs.declared.kind.Kind.TheVariants as kinds;
ghost use Rattle.object_name.specs.Name.{max_size, name_of};
ghost use Rattle.thunk_codec.specs.declared.job.Job.{Job};
ghost use Rattle.thunk_codec.specs.Outcome.{Fits};
ghost use Rattle.thunk_codec.specs.Thunk.{Parts, text_of};
ghost use Rattle.blob_store.specs.Keeping.{kept};
ghost use Rattle.object_name.specs.Causes.{TriesAtMost};
ghost use Rattle.need_eval.specs.Eval.{each};
ghost use Rattle.need_eval.specs.Evaluation.{store_one, outputs_by, finished};
ghost use Rattle.need_eval.specs.StepContracts.{HasKeeperCause, fault_of_store, keeper_failures};
ghost use Rattle.need_eval.specs.WriteContracts.{PutsAs};

use crate::fault::{EvalFault, Refusal};
use blob_store::{Keeper, StoreFault, store};
use object_name::{Bytes, Many, Name, Trouble};
use reduction_cache::keep_note;
use std::alloc::Global;
use thunk_codec::Outcome;

/// Why an object was not stored, as a fault of an evaluation.
fn store_fault(fault: StoreFault) -> EvalFault
    ensures { result ≡ fault_of_store fault }
{
    match fault {
        StoreFault::Clash { name, held, fresh } => EvalFault::Clash { name, held, fresh },
        StoreFault::Failed => EvalFault::StoreFailed,
        StoreFault::Memory => EvalFault::Memory,
    }
}

/// Writes an object, unless it is held, and gives its name.
fn keep<K: Keeper>(
    alloc: Global,
    keeper: &mut K,
    bytes: &[u8],
    retries: u32,
) -> Result<Name, EvalFault>
    requires { length bytes.now ≤ max_size }
    ensures puts { K.tells → PutsAs (store_one bytes.now) (kept K.store K.writes keeper.old) (kept K.store K.writes keeper.new) result }
    ensures cause { HasKeeperCause retries (K.faults keeper.old) (K.faults keeper.new) result }
    ensures tries { K.tells → TriesAtMost retries K.calls K.faults keeper.old keeper.new (keeper_failures result) }
{
    match store(alloc, keeper, bytes, retries) {
        Ok(name) => Ok(name),
        Err(fault) => Err(store_fault(fault)),
    }
}

/// Writes objects, unless they are held, and gives their names.
fn keep_all<K: Keeper>(
    alloc: Global,
    keeper: &mut K,
    outputs: &[Bytes],
    retries: u32,
) -> Result<Many<Name>, EvalFault>
    requires { sum_by length outputs.now ≤ max_size }
    ensures puts { K.tells → PutsAs (each store_one outputs.now) (kept K.store K.writes keeper.old) (kept K.store K.writes keeper.new) result }
    ensures number { IfOk result (λ names. length names ≡ length outputs.now) }
    ensures cause { HasKeeperCause retries (K.faults keeper.old) (K.faults keeper.new) result }
    ensures tries { K.tells → TriesAtMost retries K.calls K.faults keeper.old keeper.new (keeper_failures result) }
{
    let mut names = Many::new(alloc);
    'outputs: for output in outputs {
        let name = keep(alloc, keeper, output.as_slice(), retries)?;
        names.push(name)?;
    }
    Ok(names)
}

/// The names of the outputs, which are written.
fn keep_outputs<K: Keeper>(
    alloc: Global,
    keeper: &mut K,
    name: &Name,
    job_outputs: usize,
    outcome: &Outcome,
    retries: u32,
) -> Result<Many<Name>, EvalFault>
    requires { (job : Job) × Fits job outcome.now × (length job.outputs ≡ job_outputs) }
    ensures puts { K.tells → PutsAs (outputs_by name.now outcome.now) (kept K.store K.writes keeper.old) (kept K.store K.writes keeper.new) result }
    ensures number { IfOk result (λ names. length names ≡ job_outputs) }
    ensures cause { HasKeeperCause retries (K.faults keeper.old) (K.faults keeper.new) result }
    ensures tries { K.tells → TriesAtMost retries K.calls K.faults keeper.old keeper.new (keeper_failures result) }
{
    match outcome {
        Outcome::Done(outputs) => keep_all(alloc, keeper, outputs.as_slice(), retries),
        Outcome::Failed(status) => Err(EvalFault::Refused(Refusal::FunctionFailed {
            name: *name,
            status: *status,
        })),
    }
}

/// The outputs of a resolved thunk by the outcome of its job: they are written, and then a note under the resolved thunk's name.
pub fn keep_outcome<K: Keeper>(
    alloc: Global,
    keeper: &mut K,
    name: &Name,
    resolved: &Name,
    job_outputs: usize,
    outcome: &Outcome,
    retries: u32,
) -> Result<Many<Name>, EvalFault>
    requires fits { (job : Job) × Fits job outcome.now × (length job.outputs ≡ job_outputs) }
    requires kind { resolved.now.kind ≡ kinds.Thunk }
    requires some_output { 1 ≤ job_outputs }
    requires few_outputs { job_outputs ≤ 64 }
    ensures puts { K.tells → (t : Parts) → resolved.now ≡ name_of (text_of t) → PutsAs (finished name.now t outcome.now) (kept K.store K.writes keeper.old) (kept K.store K.writes keeper.new) result }
    ensures cause { HasKeeperCause retries (K.faults keeper.old) (K.faults keeper.new) result }
    ensures tries { K.tells → TriesAtMost retries K.calls K.faults keeper.old keeper.new (keeper_failures result) }
{
    let outputs = keep_outputs(alloc, keeper, name, job_outputs, outcome, retries)?;
    match keep_note(alloc, keeper, resolved, outputs.as_slice(), retries) {
        Ok(()) => Ok(outputs),
        Err(Trouble::Failed) => Err(EvalFault::StoreFailed),
        Err(Trouble::Memory) => Err(EvalFault::Memory),
    }
}
