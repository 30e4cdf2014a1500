//! Putting objects under their names.

ghost use Rattle.std.specs.Prelude.{◌≡◌, ◌≤◌, length, IfOk};
ghost use Rattle.object_name.specs.Name.{name_of, max_size};
ghost use Rattle.blob_store.specs.declared.storing.StoreFault.TheVariants.{Memory};
ghost use Rattle.blob_store.specs.Keeping.{StoresAs, ListsStored, ShowsClash, StoreCause, fault_of};
ghost use Rattle.object_name.specs.Causes.{TriesAtMost};
ghost use Rattle.blob_store.specs.Keeping.{store_failures};

use crate::fetching::fetch;
use crate::keeper::Keeper;
use crate::retries::put_again;
use object_name::{Bytes, Name, Trouble, name_of};
use std::alloc::{AllocError, Global};

/// Why bytes were not stored.
#[derive(Debug, Drop)]
pub enum StoreFault {
    /// Other bytes of that name are held.
    Clash {
        name: Name,
        held: Bytes,
        fresh: Bytes,
    },
    /// The keeper failed more often than was tried again.
    Failed,
    /// Out of memory.
    Memory,
}

impl From<AllocError> for StoreFault {
    ghost from_gives = { λ _ e. e ≡ Memory };

    fn from(_: AllocError) -> Self {
        StoreFault::Memory
    }
}

impl From<Trouble> for StoreFault {
    ghost from_gives = { λ trouble e. e ≡ fault_of trouble };

    fn from(trouble: Trouble) -> Self {
        match trouble {
            Trouble::Failed => StoreFault::Failed,
            Trouble::Memory => StoreFault::Memory,
        }
    }
}

/// Makes an object held, and answers its name. Where an equal object is held already, nothing is written.
/// A failed call of the keeper is tried again, `retries` times at most.
pub fn store<K: Keeper>(
    alloc: Global,
    keeper: &mut K,
    bytes: &[u8],
    retries: u32,
) -> Result<Name, StoreFault>
    requires { length bytes.now ≤ max_size }
    ensures named { IfOk result (λ name. name ≡ name_of bytes.now) }
    ensures stores { K.tells → StoresAs (K.store keeper.old) bytes.now (K.store keeper.new) result }
    // What was to be written was put once, and nothing else was; a put that failed isn't in the list.
    ensures listed { K.tells → ListsStored (K.store keeper.old) bytes.now (K.writes keeper.old) (K.writes keeper.new) result }
    ensures clash { ShowsClash bytes.now result }
    ensures later { K.faults keeper.old ≤ K.faults keeper.new }
    ensures cause { StoreCause retries (K.faults keeper.old) (K.faults keeper.new) result }
    ensures tries { K.tells → TriesAtMost retries K.calls K.faults keeper.old keeper.new (store_failures result) }
{
    let name = name_of(bytes).unwrap();
    let Some(held) = fetch(alloc, keeper, &name, retries)? else {
        put_again(keeper, &name, bytes, retries)?;
        return Ok(name);
    };
    if held.as_slice() == bytes {
        return Ok(name);
    }
    Err(StoreFault::Clash {
        name,
        held,
        fresh: Bytes::from_slice(alloc, bytes)?,
    })
}
