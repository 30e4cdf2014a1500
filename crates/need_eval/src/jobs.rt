//! The job of a thunk whose references are all values.

ghost use Rattle.std.specs.Prelude.{◌≡◌, IfOk, map};
ghost use Rattle.thunk_codec.specs.Job.{IsJobOf, with_length, with_size};
ghost use Rattle.need_eval.specs.Eval.{State, each};
ghost use Rattle.need_eval.specs.Evaluation.{input_object, job_of};
ghost use Rattle.need_eval.specs.StepContracts.{Reads, OnlyReads};

use crate::fault::EvalFault;
use crate::reading::object;
use blob_store::Keeper;
use object_name::{Bytes, Many, TryCopy};
use std::alloc::{AllocError, Global};
use thunk_codec::{Job, Path, Ref, Thunk};

/// Copies of some things, in order.
fn copy_all<T: TryCopy>(alloc: Global, items: &[T]) -> Result<Many<T>, AllocError>
    ensures { IfOk result (λ copies. copies ≡ items.now) }
{
    let mut copies = Many::new(alloc);
    'copied: for item in items {
        copies.push(item.copy(alloc)?)?;
    }
    Ok(copies)
}

/// The path of an input, with the bytes of its value.
fn input_object<K: Keeper>(
    alloc: Global,
    keeper: &mut K,
    path: &Path,
    reference: &Ref,
    retries: u32,
) -> Result<(Path, Bytes), EvalFault>
    ensures reads { K.tells → (s : State) → s.store ≡ K.store keeper.old → Reads (λ read. read) (input_object (path.now, reference.now) s) s result }
    ensures sized { IfOk result (λ read. with_length read ≡ with_size (path.now, reference.now)) }
    ensures only_reads { OnlyReads K.tells K.store K.writes K.faults K.calls keeper.old keeper.new retries result }
{
    let bytes = object(alloc, keeper, reference.name(), retries)?;
    let path = path.copy(alloc)?;
    Ok((path, bytes))
}

/// The paths of the inputs, with the bytes of their values.
fn input_objects<K: Keeper>(
    alloc: Global,
    keeper: &mut K,
    inputs: &[(Path, Ref)],
    retries: u32,
) -> Result<Many<(Path, Bytes)>, EvalFault>
    ensures reads { K.tells → (s : State) → s.store ≡ K.store keeper.old → Reads (λ read. read) (each input_object inputs.now s) s result }
    ensures sized { IfOk result (λ read. map with_length read ≡ map with_size inputs.now) }
    ensures only_reads { OnlyReads K.tells K.store K.writes K.faults K.calls keeper.old keeper.new retries result }
{
    let mut read = Many::new(alloc);
    'inputs: for (path, reference) in inputs {
        let input = input_object(alloc, keeper, path, reference, retries)?;
        read.push(input)?;
    }
    Ok(read)
}

/// The job of a thunk whose references are all values.
pub fn job_of<K: Keeper>(
    alloc: Global,
    keeper: &mut K,
    thunk: &Thunk,
    retries: u32,
) -> Result<Job, EvalFault>
    ensures reads { K.tells → (s : State) → s.store ≡ K.store keeper.old → Reads (λ job. job) (job_of thunk.now s) s result }
    ensures parts { IfOk result (λ job. IsJobOf thunk.now job) }
    ensures only_reads { OnlyReads K.tells K.store K.writes K.faults K.calls keeper.old keeper.new retries result }
{
    let function = object(alloc, keeper, thunk.function().name(), retries)?;
    let inputs = input_objects(alloc, keeper, thunk.inputs(), retries)?;
    let args = copy_all(alloc, thunk.args())?;
    let envs = copy_all(alloc, thunk.envs())?;
    let outputs = copy_all(alloc, thunk.outputs())?;
    Ok(Job {
        function,
        args,
        envs,
        inputs,
        outputs,
    })
}
