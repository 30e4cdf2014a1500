//! The jobs of thunks whose references all have values.

ghost use Rattle.std.specs.Prelude.{◌≡◌, ◌≤◌, map, IfOk, IfSome};
ghost use Rattle.thunk_codec.specs.Job.{IsJobOf, max_job, resolved_size, with_length, with_size};
ghost use Rattle.thunk_codec.specs.Thunk.{Text};
ghost use Rattle.force_pool.specs.Values.{AreValues};
ghost use Rattle.force_pool.specs.Walks.{IsOnlyRead};

use crate::hall::Hall;
use crate::limits::Limits;
use crate::objects::object;
use crate::outputs::Outputs;
use blob_store::Keeper;
use need_eval::Prepared;
use object_name::{Bytes, Many, Name, Trouble, TryCopy, name_of};
use reduction_cache::hit;
use std::alloc::{AllocError, Global};
use std::sync::Wait;
use std::sync::ledger::Ledger;
use thunk_codec::{Function, Job, Path, Ref, Thunk, encode, resolve};

/// The greatest length of a job's encoding, in bytes.
const MAX_JOB: u64 = 67_108_864;

/// What comes of a thunk whose references all have values.
#[derive(Drop)]
pub(crate) enum Made {
    /// Its job can be run.
    Job(Prepared),
    /// Its outputs were noted, and all are held.
    Noted(Many<Name>),
    /// It can't be run ahead.
    Nothing,
}

/// The values of the references of a thunk, in order. None where one has none.
#[tactic(auto, using(crate::proofs::ReadsAhead::no_values, crate::proofs::ReadsAhead::values_pushed))]
fn values_of(
    alloc: Global,
    outputs: &Outputs,
    thunk: &Thunk,
) -> Result<Option<Many<Name>>, AllocError>
    ensures { IfOk result (λ found. IfSome found AreValues) }
{
    let mut values = Many::new(alloc);
    let Some(function) = outputs.value(thunk.function()) else {
        return Ok(None);
    };
    values.push(function)?;
    'inputs: for (_path, reference) in thunk.inputs() {
        let Some(value) = outputs.value(reference) else {
            return Ok(None);
        };
        values.push(value)?;
    }
    Ok(Some(values))
}

/// A thunk with the values of its references in their places. None where one has none.
fn resolved(alloc: Global, outputs: &Outputs, thunk: &Thunk) -> Result<Option<Thunk>, AllocError> {
    let Some(values) = values_of(alloc, outputs, thunk)? else {
        return Ok(None);
    };
    if values.len() != thunk.inputs().len() + 1 {
        return Ok(None);
    }
    Ok(Some(resolve(alloc, thunk, values.as_slice())?))
}

/// The outputs that a note has of the thunk of a text, where all are held. None where there is no such note, or it can't be read.
#[tactic(auto, using(crate::proofs::KeepersRead::read_none, crate::proofs::ReadsAhead::read_over))]
fn noted<K: Keeper>(
    alloc: Global,
    keeper: &mut K,
    text: &[u8],
    outputs: u32,
    retries: u32,
) -> Result<Option<Many<Name>>, AllocError>
    ensures { IsOnlyRead K.tells K.store K.writes K.faults keeper.old keeper.new }
{
    let Ok(name) = name_of(text) else {
        return Ok(None);
    };
    match hit(alloc, keeper, &name, outputs, retries) {
        Ok(found) => Ok(found),
        Err(Trouble::Failed) => Ok(None),
        Err(Trouble::Memory) => Err(AllocError),
    }
}

/// The paths of inputs, with the bytes of their values. None where some can't be had.
fn input_objects<R: Wait, K: Keeper, F: Function, S: Limits, P: Ledger, O: Ledger>(
    rt: &R,
    alloc: Global,
    keeper: &mut K,
    hall: &Hall<F, S, P, O>,
    outputs: &Outputs,
    inputs: &[(Path, Ref)],
    retries: u32,
) -> Result<Option<Many<(Path, Bytes)>>, AllocError>
    ensures sized { IfOk result (λ found. IfSome found (λ read. map with_length read ≡ map with_size inputs.now)) }
    ensures reads { IsOnlyRead K.tells K.store K.writes K.faults keeper.old keeper.new }
{
    let mut read = Many::new(alloc);
    'inputs: for (path, reference) in inputs {
        let found = object(rt, alloc, keeper, hall, outputs, reference.name(), retries)?;
        let Some(bytes) = found else {
            return Ok(None);
        };
        let path = path.copy(alloc)?;
        read.push((path, bytes))?;
    }
    Ok(Some(read))
}

/// Copies of some things, in order.
fn copies<T: TryCopy>(alloc: Global, items: &[T]) -> Result<Many<T>, AllocError>
    ensures { IfOk result (λ made. made ≡ items.now) }
{
    let mut made = Many::new(alloc);
    'items: for item in items {
        made.push(item.copy(alloc)?)?;
    }
    Ok(made)
}

/// The job of a thunk whose references are values, with their bytes.
fn with_objects(
    alloc: Global,
    thunk: &Thunk,
    function: Bytes,
    inputs: Many<(Path, Bytes)>,
) -> Result<Job, AllocError>
    ensures { IfOk result (λ job. (job.function ≡ function) × (job.args ≡ thunk.now.args) × (job.envs ≡ thunk.now.envs) × (job.inputs ≡ inputs) × (job.outputs ≡ thunk.now.outputs)) }
{
    let args = copies(alloc, thunk.args())?;
    let envs = copies(alloc, thunk.envs())?;
    let outputs = copies(alloc, thunk.outputs())?;
    Ok(Job {
        function,
        args,
        envs,
        inputs,
        outputs,
    })
}

/// The job of a thunk whose references are values. None where the bytes of some can't be had.
#[tactic(auto, using(crate::proofs::KeepersRead::read_none, crate::proofs::KeepersRead::read_both))]
fn job_of<R: Wait, K: Keeper, F: Function, S: Limits, P: Ledger, O: Ledger>(
    rt: &R,
    alloc: Global,
    keeper: &mut K,
    hall: &Hall<F, S, P, O>,
    outputs: &Outputs,
    thunk: &Thunk,
    retries: u32,
) -> Result<Option<Job>, AllocError>
    ensures parts { IfOk result (λ found. IfSome found (λ job. IsJobOf thunk.now job)) }
    ensures reads { IsOnlyRead K.tells K.store K.writes K.faults keeper.old keeper.new }
{
    let name = thunk.function().name();
    let Some(function) = object(rt, alloc, keeper, hall, outputs, name, retries)? else {
        return Ok(None);
    };
    let inputs = thunk.inputs();
    let Some(inputs) = input_objects(rt, alloc, keeper, hall, outputs, inputs, retries)? else {
        return Ok(None);
    };
    Ok(Some(with_objects(alloc, thunk, function, inputs)?))
}

/// A job that is prepared, with the text of its thunk.
fn prepared(text: Bytes, thunk: &Thunk, job: Job) -> Prepared
    requires text { Text text thunk.now }
    requires parts { IsJobOf thunk.now job }
    requires small { resolved_size thunk.now ≤ max_job }
{
    Prepared { text, job }
}

/// What comes of a thunk whose references all have values, those of the thunks whose outputs are given.
#[tactic(auto, using(crate::proofs::KeepersRead::read_none, crate::proofs::KeepersRead::read_both))]
pub(crate) fn make<R: Wait, K: Keeper, F: Function, S: Limits, P: Ledger, O: Ledger>(
    rt: &R,
    alloc: Global,
    keeper: &mut K,
    hall: &Hall<F, S, P, O>,
    outputs: &Outputs,
    thunk: &Thunk,
    retries: u32,
) -> Result<Made, AllocError>
    ensures { IsOnlyRead K.tells K.store K.writes K.faults keeper.old keeper.new }
{
    let Some(thunk) = resolved(alloc, outputs, thunk)? else {
        return Ok(Made::Nothing);
    };
    if thunk.resolved_size() > MAX_JOB {
        return Ok(Made::Nothing);
    }
    let text = encode(alloc, &thunk)?;
    let count = thunk.outputs().len() as u32;
    if let Some(names) = noted(alloc, keeper, text.as_slice(), count, retries)? {
        return Ok(Made::Noted(names));
    }
    match job_of(rt, alloc, keeper, hall, outputs, &thunk, retries)? {
        Some(job) => Ok(Made::Job(prepared(text, &thunk, job))),
        None => Ok(Made::Nothing),
    }
}
