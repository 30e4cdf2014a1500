//! A tree in memory.

ghost use Rattle.std.specs.Prelude.{◌≡◌, ◌↔◌, ◌++◌, ◌∷◌, [], length, IsTrue, IsErrOf, IfOk, OnOk, OnErr};
ghost use Rattle.std.specs.FinMap as map;
ghost use Rattle.std.specs.Option.{option_copied};
ghost use Rattle.object_name.specs.Causes.{HasCause};
ghost use Rattle.object_name.specs.Calls.{fails_next, not_called, risen};
ghost use Rattle.object_name.specs.Maps.{map_of};
ghost use Rattle.file_tree.specs.Files.{IsShort, file_read};
ghost use Rattle.file_tree.specs.Memory.{files_of, called, path_cmp, with_file, with_none};
ghost use Rattle.file_tree.specs.declared.change.Change.TheVariants.{Written};

use crate::change::Change;
use crate::tree::{FileRead, Tree};
use object_name::{Bytes, Calls, MAX_SIZE, Many, Trouble, TryCopy};
use std::alloc::{AllocError, Global};
use std::collections::BTreeMap;
use std::marker::Model;
use thunk_codec::Path;

/// A tree in memory, of which the calls with listed numbers fail and change nothing. It records its changes.
#[derive(Drop)]
pub struct MemTree {
    alloc: Global,
    held: BTreeMap<Path, Bytes>,
    calls: Calls,
    changes: Vec<Change>,
}

impl Model for MemTree {
    ghost use Rattle.std.specs.FinMap as map;
    ghost use Rattle.file_tree.specs.Memory.{Memory, memory_code};

    ghost Value = { Memory };

    ghost coded = { memory_code };

    ghost view = { λ t. record { held = map.from_entries t.held.entries; calls = t.calls; changes = t.changes.items } };
}

impl MemTree {
    /// A tree of these files. A later one replaces an earlier one of the same path.
    /// The calls, numbered from 1 over all methods of `Tree`, fail where their number is listed.
    pub fn new(
        alloc: Global,
        files: Many<(Path, Bytes)>,
        failing: Many<u64>,
    ) -> Result<Self, AllocError>
        ensures { IfOk result (λ t. t ≡ record { held = map_of files; calls = not_called failing; changes = [] }) }
    {
        let mut held = BTreeMap::new(alloc);
        'files: for (path, bytes) in files.0 {
            held.insert(path, bytes)?;
        }
        Ok(MemTree {
            alloc,
            held,
            calls: Calls::new(failing),
            changes: Vec::new(alloc),
        })
    }

    /// How many calls were made.
    pub fn calls(&self) -> u64
        ensures { result ≡ self.now.calls.count }
    {
        self.calls.count()
    }

    /// The changes that were made, in order.
    pub fn changes(&self) -> &[Change]
        ensures { result.now ≡ self.now.changes }
    {
        self.changes.as_slice()
    }

    /// The files in the order of their paths, each once.
    pub fn into_content(self) -> Result<Many<(Path, Bytes)>, AllocError>
        ensures files { IfOk result (λ files. map.from_entries files ≡ self.held) }
        ensures once { IfOk result (λ files. length files ≡ map.len self.held) }
    {
        let MemTree { alloc, held, .. } = self;
        let mut files = Many::new(alloc);
        'files: for file in held {
            files.push(file)?;
        }
        Ok(files)
    }
}

impl Tree for MemTree {
    ghost tells = { Unit {0} };

    ghost files = { files_of };

    ghost changes = { λ t. t.changes };

    ghost faults = { λ t. t.calls.faults };

    ghost calls = { λ t. t.calls.count };

    fn read(&mut self, alloc: Global, path: &Path) -> Result<FileRead, Trouble>
        ensures found { IfOk result (λ read. read ≡ file_read (map.get self.old.held path.now)) }
        ensures short { IfOk result IsShort }
        ensures after { self.new ≡ called self.old }
        ensures fails { IsErrOf result Trouble.Failed ↔ IsTrue (fails_next self.old.calls) }
        ensures cause { HasCause self.old.calls.faults self.new.calls.faults result }
        ensures one { self.new.calls.count ≡ risen self.old.calls.count }
    {
        self.calls.begin()?;
        Ok(file_read(alloc, self.held.get(path))?)
    }

    fn write(&mut self, path: &Path, bytes: &[u8]) -> Result<(), Trouble>
        ensures made { OnOk result (self.new ≡ with_file self.old path.now bytes.now) }
        ensures kept { OnErr result (self.new ≡ called self.old) }
        ensures fails { IsErrOf result Trouble.Failed ↔ IsTrue (fails_next self.old.calls) }
        ensures cause { HasCause self.old.calls.faults self.new.calls.faults result }
        ensures one { self.new.calls.count ≡ risen self.old.calls.count }
    {
        self.calls.begin()?;
        Ok(keep(self.alloc, &mut self.held, &mut self.changes, path, bytes)?)
    }

    fn remove(&mut self, path: &Path) -> Result<(), Trouble>
        ensures made { OnOk result (self.new ≡ with_none self.old path.now) }
        ensures kept { OnErr result (self.new ≡ called self.old) }
        ensures fails { IsErrOf result Trouble.Failed ↔ IsTrue (fails_next self.old.calls) }
        ensures cause { HasCause self.old.calls.faults self.new.calls.faults result }
        ensures one { self.new.calls.count ≡ risen self.old.calls.count }
    {
        self.calls.begin()?;
        self.changes.push(Change::Removed(path.copy(self.alloc)?))?;
        self.held.remove(path);
        Ok(())
    }
}

/// Puts bytes under a path, and records it.
fn keep(
    alloc: Global,
    held: &mut BTreeMap<Path, Bytes>,
    changes: &mut Vec<Change>,
    path: &Path,
    bytes: &[u8],
) -> Result<(), AllocError>
    ensures put { OnOk result (map.from_entries {R = path_cmp} held.new.entries ≡ map.insert (map.from_entries held.old.entries) path.now bytes.now) }
    ensures listed { OnOk result (changes.new.items ≡ changes.old.items ++ Written path.now bytes.now ∷ []) }
    ensures kept { OnErr result (held.new.entries ≡ held.old.entries) }
    ensures same { OnErr result (changes.new.items ≡ changes.old.items) }
{
    let copy = path.copy(alloc)?;
    let content = Bytes::from_slice(alloc, bytes)?;
    changes.push(written(alloc, path, bytes)?)?;
    if let Err(refused) = held.insert(copy, content) {
        changes.pop();
        return Err(AllocError::from(refused));
    }
    Ok(())
}

/// The change that writes bytes at a path.
fn written(alloc: Global, path: &Path, bytes: &[u8]) -> Result<Change, AllocError>
    ensures { IfOk result (λ change. change ≡ Written path.now bytes.now) }
{
    Ok(Change::Written(path.copy(alloc)?, Bytes::from_slice(alloc, bytes)?))
}

/// What reading gives, by the bytes of a file.
fn file_read(alloc: Global, found: Option<&Bytes>) -> Result<FileRead, AllocError>
    ensures exact { IfOk result (λ read. read ≡ file_read (option_copied found.entry)) }
    ensures short { IfOk result IsShort }
{
    let Some(bytes) = found else {
        return Ok(FileRead::Absent);
    };
    if bytes.len() > MAX_SIZE as usize {
        return Ok(FileRead::TooLong);
    }
    Ok(FileRead::Bytes(bytes.copy(alloc)?))
}
