//! Calls of a keeper that are tried again.

ghost use Rattle.std.specs.Prelude.{◌≡◌, ◌++◌, ◌∷◌, [], IfOk, OnOk, OnErr};
ghost use Rattle.object_name.specs.Causes.{HasCauseBy, faults_of};
ghost use Rattle.blob_store.specs.Keeping.{MayWrite};
ghost use Rattle.object_name.specs.Causes.{TriesAtMost};
ghost use Rattle.blob_store.specs.Store.{after_write};
ghost use Rattle.blob_store.specs.Store.Write.{Object, Note};

use crate::keeper::Keeper;
use object_name::{Bytes, Name, Trouble, try_again};
use std::alloc::Global;

/// The bytes under a name among the objects, by the first of `retries` + 1 calls that doesn't fail.
pub fn get_again<K: Keeper>(
    alloc: Global,
    keeper: &mut K,
    name: &Name,
    retries: u32,
) -> Result<Option<Bytes>, Trouble>
    ensures found { K.tells → IfOk result (λ found. found ≡ (K.store keeper.old).objects name.now) }
    ensures same { K.tells → K.store keeper.new ≡ K.store keeper.old }
    ensures list { K.tells → K.writes keeper.new ≡ K.writes keeper.old }
    ensures cause { HasCauseBy retries (K.faults keeper.old) (K.faults keeper.new) result }
    ensures tries { K.tells → TriesAtMost retries K.calls K.faults keeper.old keeper.new (faults_of result) }
{
    try_again!(tried in retries, keeper.get(alloc, name))
}

/// Puts bytes under a name among the objects, by the first of `retries` + 1 calls that doesn't fail.
pub fn put_again<K: Keeper>(
    keeper: &mut K,
    name: &Name,
    bytes: &[u8],
    retries: u32,
) -> Result<(), Trouble>
    ensures made { K.tells → OnOk result (K.store keeper.new ≡ after_write (K.store keeper.old) (Object name.now bytes.now)) }
    ensures kept { K.tells → OnErr result (MayWrite (K.store keeper.old) (Object name.now bytes.now) (K.store keeper.new)) }
    ensures listed { K.tells → OnOk result (K.writes keeper.new ≡ K.writes keeper.old ++ Object name.now bytes.now ∷ []) }
    ensures unlisted { K.tells → OnErr result (K.writes keeper.new ≡ K.writes keeper.old) }
    ensures cause { HasCauseBy retries (K.faults keeper.old) (K.faults keeper.new) result }
    ensures tries { K.tells → TriesAtMost retries K.calls K.faults keeper.old keeper.new (faults_of result) }
{
    try_again!(tried in retries, keeper.put(name, bytes))
}

/// The bytes under a name among the notes, by the first of `retries` + 1 calls that doesn't fail.
pub fn get_note_again<K: Keeper>(
    alloc: Global,
    keeper: &mut K,
    name: &Name,
    retries: u32,
) -> Result<Option<Bytes>, Trouble>
    ensures found { K.tells → IfOk result (λ found. found ≡ (K.store keeper.old).notes name.now) }
    ensures same { K.tells → K.store keeper.new ≡ K.store keeper.old }
    ensures list { K.tells → K.writes keeper.new ≡ K.writes keeper.old }
    ensures cause { HasCauseBy retries (K.faults keeper.old) (K.faults keeper.new) result }
    ensures tries { K.tells → TriesAtMost retries K.calls K.faults keeper.old keeper.new (faults_of result) }
{
    try_again!(tried in retries, keeper.get_note(alloc, name))
}

/// Puts bytes under a name among the notes, by the first of `retries` + 1 calls that doesn't fail.
pub fn put_note_again<K: Keeper>(
    keeper: &mut K,
    name: &Name,
    bytes: &[u8],
    retries: u32,
) -> Result<(), Trouble>
    ensures made { K.tells → OnOk result (K.store keeper.new ≡ after_write (K.store keeper.old) (Note name.now bytes.now)) }
    ensures kept { K.tells → OnErr result (MayWrite (K.store keeper.old) (Note name.now bytes.now) (K.store keeper.new)) }
    ensures listed { K.tells → OnOk result (K.writes keeper.new ≡ K.writes keeper.old ++ Note name.now bytes.now ∷ []) }
    ensures unlisted { K.tells → OnErr result (K.writes keeper.new ≡ K.writes keeper.old) }
    ensures cause { HasCauseBy retries (K.faults keeper.old) (K.faults keeper.new) result }
    ensures tries { K.tells → TriesAtMost retries K.calls K.faults keeper.old keeper.new (faults_of result) }
{
    try_again!(tried in retries, keeper.put_note(name, bytes))
}
