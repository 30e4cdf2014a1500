//! Hits: what is known of a reduction by a note of a store.

ghost use Rattle.std.specs.Prelude.{◌≡◌, ◌↔◌, ◌+◌, length, IsTrue, IfOk, IfSome};
ghost use Rattle.std.specs.List.{list_all};
ghost use Rattle.object_name.specs.Causes.{HasCauseOver, faults_of};
ghost use Rattle.object_name.specs.Causes.{TriesAtMost};
ghost use Rattle.reduction_cache.specs.Hit.{hit_of, is_held};

use crate::note::read_note;
use blob_store::{Keeper, fetch, get_note_again};
use object_name::{Many, Name, Trouble};
use std::alloc::Global;

/// Whether all objects of some names are held. The first that isn't ends it.
fn are_held<K: Keeper>(
    alloc: Global,
    keeper: &mut K,
    names: &[Name],
    retries: u32,
) -> Result<bool, Trouble>
    ensures held { K.tells → IfOk result (λ held. held ≡ list_all (is_held (K.store keeper.old)) names.now) }
    ensures same { K.tells → K.store keeper.new ≡ K.store keeper.old }
    ensures list { K.tells → K.writes keeper.new ≡ K.writes keeper.old }
    ensures cause { HasCauseOver (length names.now) retries (K.faults keeper.old) (K.faults keeper.new) result }
    ensures tries { K.tells → TriesAtMost retries K.calls K.faults keeper.old keeper.new (faults_of result) }
{
    'names: for name in names {
        if fetch(alloc, keeper, name, retries)?.is_none() {
            return Ok(false);
        }
    }
    Ok(true)
}

/// Whether two names are one.
fn is_same(name: &Name, other: &Name) -> bool
    ensures { IsTrue result ↔ (name.now ≡ other.now) }
{
    *name == *other
}

/// The outputs of a resolved thunk, where there is a note for it with so many outputs, all of them held.
/// A failed call of the keeper is tried again, `retries` times at most.
pub fn hit<K: Keeper>(
    alloc: Global,
    keeper: &mut K,
    resolved: &Name,
    outputs: u32,
    retries: u32,
) -> Result<Option<Many<Name>>, Trouble>
    ensures found { K.tells → IfOk result (λ found. found ≡ hit_of (K.store keeper.old) resolved.now outputs) }
    ensures count { IfOk result (λ found. IfSome found (λ names. length names ≡ outputs)) }
    ensures same { K.tells → K.store keeper.new ≡ K.store keeper.old }
    ensures list { K.tells → K.writes keeper.new ≡ K.writes keeper.old }
    ensures cause { HasCauseOver (1 + outputs) retries (K.faults keeper.old) (K.faults keeper.new) result }
    ensures tries { K.tells → TriesAtMost retries K.calls K.faults keeper.old keeper.new (faults_of result) }
{
    let Some(bytes) = get_note_again(alloc, keeper, resolved, retries)? else {
        return Ok(None);
    };
    let Some(note) = read_note(alloc, bytes.as_slice())? else {
        return Ok(None);
    };
    let (name, names) = note;
    if !is_same(&name, resolved) {
        return Ok(None);
    }
    if names.len() != outputs as usize {
        return Ok(None);
    }
    if !are_held(alloc, keeper, names.as_slice(), retries)? {
        return Ok(None);
    }
    Ok(Some(names))
}
