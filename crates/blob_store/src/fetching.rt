//! Objects by name.

ghost use Rattle.std.specs.Prelude.{◌≡◌, ◌↔◌, IsTrue, IfOk, IfSome};
ghost use Rattle.object_name.specs.Causes.{HasCauseBy, faults_of};
ghost use Rattle.object_name.specs.Name.{name_of};
ghost use Rattle.object_name.specs.Causes.{TriesAtMost};
ghost use Rattle.blob_store.specs.Store.{held, if_named};

use crate::keeper::Keeper;
use crate::retries::get_again;
use object_name::{Bytes, Name, Trouble, name_of};
use std::alloc::Global;

/// The object of a name, where it is held: other bytes under the name count as nothing.
/// A failed call of the keeper is tried again, `retries` times at most.
pub fn fetch<K: Keeper>(
    alloc: Global,
    keeper: &mut K,
    name: &Name,
    retries: u32,
) -> Result<Option<Bytes>, Trouble>
    ensures found { K.tells → IfOk result (λ found. found ≡ held (K.store keeper.old).objects name.now) }
    ensures named { IfOk result (λ found. IfSome found (λ bytes. name_of bytes ≡ name.now)) }
    ensures same { K.tells → K.store keeper.new ≡ K.store keeper.old }
    ensures list { K.tells → K.writes keeper.new ≡ K.writes keeper.old }
    ensures cause { HasCauseBy retries (K.faults keeper.old) (K.faults keeper.new) result }
    ensures tries { K.tells → TriesAtMost retries K.calls K.faults keeper.old keeper.new (faults_of result) }
{
    match get_again(alloc, keeper, name, retries)? {
        Some(bytes) => Ok(if_named(name, bytes)),
        None => Ok(None),
    }
}

/// The bytes, where they have that name.
fn if_named(name: &Name, bytes: Bytes) -> Option<Bytes>
    ensures named { result ≡ if_named name.now bytes }
    ensures only { IfSome result (λ found. name_of found ≡ name.now) }
{
    if has_name(name, bytes.as_slice()) {
        Some(bytes)
    } else {
        None
    }
}

/// Whether bytes have a name. Bytes over the greatest size have none.
fn has_name(name: &Name, bytes: &[u8]) -> bool
    ensures { IsTrue result ↔ (name_of bytes.now ≡ name.now) }
{
    if bytes.len() != name.size() as usize {
        return false;
    }
    match name_of(bytes) {
        Ok(found) => found == *name,
        Err(_) => false,
    }
}
