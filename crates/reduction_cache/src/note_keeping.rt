//! Keeping notes in a store.

ghost use Rattle.std.specs.Prelude.{◌≡◌, ◌≤◌, ◌++◌, ◌∷◌, [], length, OnOk, OnErr};
ghost use Rattle.object_name.specs.declared.kind.Kind.TheVariants.{Thunk};
ghost use Rattle.object_name.specs.Causes.{HasCauseBy, faults_of};
ghost use Rattle.blob_store.specs.Store.{after_write};
ghost use Rattle.blob_store.specs.Keeping.{MayWrite};
ghost use Rattle.object_name.specs.Causes.{TriesAtMost};
ghost use Rattle.reduction_cache.specs.Hit.{note_write};

use crate::note::encode_note;
use blob_store::{Keeper, put_note_again};
use object_name::{Name, Trouble};
use std::alloc::Global;

/// Keeps the note that a resolved thunk has these outputs.
pub fn keep_note<K: Keeper>(
    alloc: Global,
    keeper: &mut K,
    resolved: &Name,
    outputs: &[Name],
    retries: u32,
) -> Result<(), Trouble>
    requires kind { resolved.now.kind ≡ Thunk }
    requires some_output { 1 ≤ length outputs.now }
    requires few_outputs { length outputs.now ≤ 64 }
    ensures made { K.tells → OnOk result (K.store keeper.new ≡ after_write (K.store keeper.old) (note_write resolved.now outputs.now)) }
    ensures kept { K.tells → OnErr result (MayWrite (K.store keeper.old) (note_write resolved.now outputs.now) (K.store keeper.new)) }
    ensures listed { K.tells → OnOk result (K.writes keeper.new ≡ K.writes keeper.old ++ note_write resolved.now outputs.now ∷ []) }
    ensures unlisted { K.tells → OnErr result (K.writes keeper.new ≡ K.writes keeper.old) }
    ensures cause { HasCauseBy retries (K.faults keeper.old) (K.faults keeper.new) result }
    ensures tries { K.tells → TriesAtMost retries K.calls K.faults keeper.old keeper.new (faults_of result) }
{
    let text = encode_note(alloc, resolved, outputs)?;
    put_note_again(keeper, resolved, text.as_slice(), retries)
}
