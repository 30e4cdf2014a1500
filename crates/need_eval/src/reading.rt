//! What an evaluation reads.

ghost use Rattle.std.specs.Prelude.{◌≡◌, ◌≤◌, ℕ, List, length, Some, IfOk, IfErr, slice_get};
ghost use Rattle.object_name.specs.Name.{ObjectName, max_size, name_of};
ghost use Rattle.blob_store.specs.Keeping.{Kept};
ghost use Rattle.reduction_cache.specs.Hit.{hit_of};
ghost use Rattle.need_eval.specs.declared.fault.Refusal.TheVariants.{NoOutput};
ghost use Rattle.need_eval.specs.Eval.{State, Ended, Refused, need};
ghost use Rattle.need_eval.specs.Evaluation.{object, thunk_at};
ghost use Rattle.need_eval.specs.StepContracts.{Reads, OnlyReads, StopsReading, ReadCause};

use crate::fault::{EvalFault, Refusal};
use blob_store::{Keeper, fetch};
use object_name::{Bytes, Many, Name, Trouble, name_of};
use reduction_cache::hit;
use std::alloc::Global;
use thunk_codec::{DecodeFault, Thunk, decode};

/// The bytes of an object that is held.
pub fn object<K: Keeper>(
    alloc: Global,
    keeper: &mut K,
    name: &Name,
    retries: u32,
) -> Result<Bytes, EvalFault>
    ensures reads { K.tells → (s : State) → s.store ≡ K.store keeper.old → Reads (λ bytes. bytes) (object name.now s) s result }
    ensures named { IfOk result (λ bytes. name_of bytes ≡ name.now) }
    ensures only_reads { OnlyReads K.tells K.store K.writes K.faults K.calls keeper.old keeper.new retries result }
{
    match fetch(alloc, keeper, name, retries) {
        Ok(Some(bytes)) => Ok(bytes),
        Ok(None) => Err(EvalFault::Refused(Refusal::Missing(*name))),
        Err(Trouble::Failed) => Err(EvalFault::StoreFailed),
        Err(Trouble::Memory) => Err(EvalFault::Memory),
    }
}

/// The thunk whose text an object is.
pub fn thunk_at<K: Keeper>(
    alloc: Global,
    keeper: &mut K,
    name: &Name,
    retries: u32,
) -> Result<Thunk, EvalFault>
    ensures reads { K.tells → (s : State) → s.store ≡ K.store keeper.old → Reads (λ t. t) (thunk_at name.now s) s result }
    ensures only_reads { OnlyReads K.tells K.store K.writes K.faults K.calls keeper.old keeper.new retries result }
{
    let bytes = object(alloc, keeper, name, retries)?;
    match decode(alloc, bytes.as_slice()) {
        Ok(thunk) => Ok(thunk),
        Err(DecodeFault::BadThunk) => Err(EvalFault::Refused(Refusal::BadThunk(*name))),
        Err(DecodeFault::Memory) => Err(EvalFault::Memory),
    }
}

/// A wanted one of some outputs.
pub fn output_at(name: &Name, index: u32, outputs: &[Name]) -> Result<Name, EvalFault>
    ensures found { IfOk result (λ output. slice_get outputs.now index ≡ Some output) }
    ensures reads { (s : State) → Reads (λ output. output) (need (slice_get outputs.now index) (Refused (NoOutput name.now index)) s) s result }
    ensures cause { (retries before after : ℕ) → IfErr result (ReadCause retries before after) }
{
    match outputs.get(index as usize) {
        Some(output) => Ok(*output),
        None => Err(EvalFault::Refused(Refusal::NoOutput { name: *name, index })),
    }
}

/// The name of an object with these bytes.
pub fn text_name(text: &[u8]) -> Name
    requires { length text.now ≤ max_size }
    ensures { result ≡ name_of text.now }
{
    name_of(text).unwrap()
}

/// The outputs of a resolved thunk of this name that a note has, where there are so many and all are held.
pub fn noted<K: Keeper>(
    alloc: Global,
    keeper: &mut K,
    resolved: &Name,
    outputs: u32,
    retries: u32,
) -> Result<Option<Many<Name>>, EvalFault>
    ensures found { K.tells → IfOk result (λ found. found ≡ hit_of (K.store keeper.old) resolved.now outputs) }
    ensures fault { IfErr result (λ fault. (e : Ended (List ObjectName)) (at : Kept) → StopsReading e at fault) }
    ensures only_reads { OnlyReads K.tells K.store K.writes K.faults K.calls keeper.old keeper.new retries result }
{
    match hit(alloc, keeper, resolved, outputs, retries) {
        Ok(found) => Ok(found),
        Err(Trouble::Failed) => Err(EvalFault::StoreFailed),
        Err(Trouble::Memory) => Err(EvalFault::Memory),
    }
}
