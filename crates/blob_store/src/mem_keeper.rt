//! A keeper in memory.

ghost use Rattle.std.specs.Prelude.{◌≡◌, ◌↔◌, ◌++◌, ◌∷◌, [], length, map as map_each, IsTrue, IsErrOf, IfOk, OnOk, OnErr};
ghost use Rattle.std.specs.FinMap as map;
ghost use Rattle.object_name.specs.Causes.{HasCause};
ghost use Rattle.object_name.specs.Calls.{fails_next, not_called, risen};
ghost use Rattle.object_name.specs.Maps.{map_of};
ghost use Rattle.blob_store.specs.Keeping.{MayWrite};
ghost use Rattle.blob_store.specs.Memory.{store_of, called, with_object, with_note};
ghost use Rattle.blob_store.specs.Puts.{write_name};
ghost use Rattle.blob_store.specs.Store.{after_write};
ghost use Rattle.blob_store.specs.Store.Write.{Object, Note};

use crate::keeper::Keeper;
use crate::named_bytes::NamedBytes;
use crate::puts::Put;
use object_name::{Bytes, Calls, Many, Name, Trouble};
use std::alloc::{AllocError, Global};
use std::marker::Model;

/// A keeper in memory, of which the calls with listed numbers fail and change nothing. It records its puts.
#[derive(Drop)]
pub struct MemKeeper {
    alloc: Global,
    objects: NamedBytes,
    notes: NamedBytes,
    calls: Calls,
    puts: Vec<Put>,
}

impl Model for MemKeeper {
    ghost use Rattle.std.specs.Prelude.{map};
    ghost use Rattle.blob_store.specs.Memory.{Memory, memory_code};
    ghost use Rattle.blob_store.specs.Puts.{write_of};

    ghost Value = { Memory };

    ghost coded = { memory_code };

    ghost view = { λ k. record { objects = k.objects; notes = k.notes; calls = k.calls; writes = map write_of k.puts.items } };
}

impl MemKeeper {
    /// A keeper that holds these objects and notes. A later pair replaces an earlier one of the same name.
    /// The calls, numbered from 1 over all methods of `Keeper`, fail where their number is listed.
    pub fn new(
        alloc: Global,
        held: Many<(Name, Bytes)>,
        notes: Many<(Name, Bytes)>,
        failing: Many<u64>,
    ) -> Result<Self, AllocError>
        ensures { IfOk result (λ k. k ≡ record { objects = map_of held; notes = map_of notes; calls = not_called failing; writes = [] }) }
    {
        Ok(MemKeeper {
            alloc,
            objects: NamedBytes::from_pairs(alloc, held)?,
            notes: NamedBytes::from_pairs(alloc, notes)?,
            calls: Calls::new(failing),
            puts: Vec::new(alloc),
        })
    }

    /// How many calls were made.
    pub fn calls(&self) -> u64
        ensures { result ≡ self.now.calls.count }
    {
        self.calls.count()
    }

    /// The names of the puts that were made, of objects and notes, in order.
    pub fn puts(&self, alloc: Global) -> Result<Many<Name>, AllocError>
        ensures { IfOk result (λ names. names ≡ map_each write_name self.now.writes) }
    {
        let mut names = Many::new(alloc);
        'puts: for put in self.puts.as_slice() {
            names.push(put.name())?;
        }
        Ok(names)
    }

    /// The objects and the notes with their names, each name once.
    pub fn into_content(self) -> (Many<(Name, Bytes)>, Many<(Name, Bytes)>)
        ensures objects { map.from_entries result.0 ≡ self.objects }
        ensures notes { map.from_entries result.1 ≡ self.notes }
        ensures objects_once { length result.0 ≡ map.len self.objects }
        ensures notes_once { length result.1 ≡ map.len self.notes }
    {
        let MemKeeper { objects, notes, .. } = self;
        (objects.into_pairs(), notes.into_pairs())
    }
}

impl Keeper for MemKeeper {
    ghost tells = { Unit {0} };

    ghost store = { store_of };

    ghost writes = { λ k. k.writes };

    ghost faults = { λ k. k.calls.faults };

    ghost calls = { λ k. k.calls.count };

    fn get(&mut self, alloc: Global, name: &Name) -> Result<Option<Bytes>, Trouble>
        ensures found { IfOk result (λ found. found ≡ map.get self.old.objects name.now) }
        ensures after { self.new ≡ called self.old }
        ensures fails { IsErrOf result Trouble.Failed ↔ IsTrue (fails_next self.old.calls) }
        ensures cause { HasCause self.old.calls.faults self.new.calls.faults result }
        ensures one { self.new.calls.count ≡ risen self.old.calls.count }
    {
        self.calls.begin()?;
        Ok(self.objects.get(alloc, name)?)
    }

    fn put(&mut self, name: &Name, bytes: &[u8]) -> Result<(), Trouble>
        ensures made { OnOk result (self.new ≡ with_object self.old name.now bytes.now) }
        ensures kept { OnErr result (self.new ≡ called self.old) }
        ensures fails { IsErrOf result Trouble.Failed ↔ IsTrue (fails_next self.old.calls) }
        ensures cause { HasCause self.old.calls.faults self.new.calls.faults result }
        ensures one { self.new.calls.count ≡ risen self.old.calls.count }
    {
        self.calls.begin()?;
        let put = Put::Object(*name, Bytes::from_slice(self.alloc, bytes)?);
        Ok(keep(
            self.alloc,
            &mut self.objects,
            &mut self.puts,
            name,
            bytes,
            put,
        )?)
    }

    fn get_note(&mut self, alloc: Global, name: &Name) -> Result<Option<Bytes>, Trouble>
        ensures found { IfOk result (λ found. found ≡ map.get self.old.notes name.now) }
        ensures after { self.new ≡ called self.old }
        ensures fails { IsErrOf result Trouble.Failed ↔ IsTrue (fails_next self.old.calls) }
        ensures cause { HasCause self.old.calls.faults self.new.calls.faults result }
        ensures one { self.new.calls.count ≡ risen self.old.calls.count }
    {
        self.calls.begin()?;
        Ok(self.notes.get(alloc, name)?)
    }

    fn put_note(&mut self, name: &Name, bytes: &[u8]) -> Result<(), Trouble>
        ensures made { OnOk result (self.new ≡ with_note self.old name.now bytes.now) }
        ensures kept { OnErr result (self.new ≡ called self.old) }
        ensures fails { IsErrOf result Trouble.Failed ↔ IsTrue (fails_next self.old.calls) }
        ensures cause { HasCause self.old.calls.faults self.new.calls.faults result }
        ensures one { self.new.calls.count ≡ risen self.old.calls.count }
    {
        self.calls.begin()?;
        let put = Put::Note(*name, Bytes::from_slice(self.alloc, bytes)?);
        Ok(keep(
            self.alloc,
            &mut self.notes,
            &mut self.puts,
            name,
            bytes,
            put,
        )?)
    }
}

/// Puts bytes under a name, and records the put.
fn keep(
    alloc: Global,
    kept: &mut NamedBytes,
    puts: &mut Vec<Put>,
    name: &Name,
    bytes: &[u8],
    put: Put,
) -> Result<(), AllocError>
    ensures put { OnOk result (kept.new ≡ map.insert kept.old name.now bytes.now) }
    ensures recorded { OnOk result (puts.new.items ≡ puts.old.items ++ put ∷ []) }
    ensures kept { OnErr result (kept.new ≡ kept.old) }
    ensures same { OnErr result (puts.new.items ≡ puts.old.items) }
{
    let copy = Bytes::from_slice(alloc, bytes)?;
    puts.push(put)?;
    if let Err(refused) = kept.put(*name, copy) {
        puts.pop();
        return Err(refused);
    }
    Ok(())
}
