//! Objects that are read ahead of the evaluation.

ghost use Rattle.std.specs.Prelude.{◌≡◌, length, IfOk, IfSome};
ghost use Rattle.force_pool.specs.Walks.{IsOnlyRead};

use crate::hall::Hall;
use crate::limits::Limits;
use crate::outputs::Outputs;
use blob_store::{Keeper, fetch};
use object_name::{Bytes, Name, Trouble};
use std::alloc::{AllocError, Global};
use std::sync::Wait;
use std::sync::ledger::Ledger;
use thunk_codec::Function;

/// The bytes of an object in the outcomes of the book, where they are there.
fn outcome_bytes<R: Wait, F: Function, S: Limits, P: Ledger, O: Ledger>(
    rt: &R,
    alloc: Global,
    hall: &Hall<F, S, P, O>,
    outputs: &Outputs,
    name: &Name,
) -> Result<Option<Bytes>, AllocError>
    ensures { IfOk result (λ found. IfSome found (λ bytes. length bytes ≡ name.now.size)) }
{
    let Some(place) = outputs.place_of(name) else {
        return Ok(None);
    };
    let Some(bytes) = hall.desk.lock(rt).output(alloc, place)? else {
        return Ok(None);
    };
    if bytes.len() != name.size() as usize {
        return Ok(None);
    }
    Ok(Some(bytes))
}

/// The bytes of an object that is held. None where it isn't, or can't be read.
#[tactic(auto, using(crate::proofs::ReadsAhead::sized_by_name, crate::proofs::ReadsAhead::read_over))]
fn held_bytes<K: Keeper>(
    alloc: Global,
    keeper: &mut K,
    name: &Name,
    retries: u32,
) -> Result<Option<Bytes>, AllocError>
    ensures sized { IfOk result (λ found. IfSome found (λ bytes. length bytes ≡ name.now.size)) }
    ensures reads { IsOnlyRead K.tells K.store K.writes K.faults keeper.old keeper.new }
{
    match fetch(alloc, keeper, name, retries) {
        Ok(found) => Ok(found),
        Err(Trouble::Failed) => Ok(None),
        Err(Trouble::Memory) => Err(AllocError),
    }
}

/// The bytes of an object, from the outcomes of the book or else from the keeper. None where it is in neither, or can't be read.
#[tactic(auto, using(crate::proofs::KeepersRead::read_none))]
pub(crate) fn object<R: Wait, K: Keeper, F: Function, S: Limits, P: Ledger, O: Ledger>(
    rt: &R,
    alloc: Global,
    keeper: &mut K,
    hall: &Hall<F, S, P, O>,
    outputs: &Outputs,
    name: &Name,
    retries: u32,
) -> Result<Option<Bytes>, AllocError>
    ensures sized { IfOk result (λ found. IfSome found (λ bytes. length bytes ≡ name.now.size)) }
    ensures reads { IsOnlyRead K.tells K.store K.writes K.faults keeper.old keeper.new }
{
    if let Some(bytes) = outcome_bytes(rt, alloc, hall, outputs, name)? {
        return Ok(Some(bytes));
    }
    held_bytes(alloc, keeper, name, retries)
}
