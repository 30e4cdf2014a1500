//! A keeper in a folder.

ghost use Rattle.std.specs.Prelude.{◌≡◌, [], None, IfOk};

use crate::keeper::Keeper;
use folder_files::{FaultCount, FileWriter, is_absent, path_in, read_file};
use object_name::{Bytes, MAX_SIZE, Name, SPELLING_LEN, Trouble};
use std::alloc::{AllocError, Global};
use std::io;
use std::rt::Files;

/// A keeper in a folder, which has each object in `objects` and each note in `notes`, in a file with the name's spelling.
/// The folders are made at the first put. It tells nothing, since others may write there.
#[derive(Drop)]
pub struct FolderKeeper<R> {
    alloc: Global,
    files: R,
    objects: String,
    notes: String,
    writer: FileWriter,
    faults: FaultCount,
}

impl<R: Files> FolderKeeper<R> {
    /// A keeper in the folder of this path, which need not be there yet, for the process with this number.
    pub fn new(alloc: Global, files: R, root: &str, process: u32) -> Result<Self, AllocError>
    where
        R: Drop,
        ensures { IfOk result (λ k. ⟦<FolderKeeper<R> as Keeper>⟧.faults k ≡ 0) }
    {
        Ok(FolderKeeper {
            alloc,
            files,
            objects: format!(in alloc; "{root}/objects")?,
            notes: format!(in alloc; "{root}/notes")?,
            writer: FileWriter::new(process),
            faults: FaultCount::new(),
        })
    }

    /// How often a call has failed. The count stands still at its last value.
    pub fn faults(&self) -> u64
        ensures { result ≡ ⟦<FolderKeeper<R> as Keeper>⟧.faults self.now }
    {
        self.faults.count()
    }
}

impl<R: Files> Keeper for FolderKeeper<R> {
    ghost tells = { ⊥ };

    ghost store = { λ _. record { objects = λ _. None; notes = λ _. None } };

    ghost writes = { λ _. [] };

    ghost faults = { λ k. k.faults };

    ghost calls = { λ _. 0 };

    fn get(&mut self, alloc: Global, name: &Name) -> Result<Option<Bytes>, Trouble> {
        let done = read_named(alloc, &self.files, self.objects.as_str(), name);
        self.faults.answer(done)
    }

    fn put(&mut self, name: &Name, bytes: &[u8]) -> Result<(), Trouble> {
        let folder = self.objects.as_str();
        let done = replace_named(
            self.alloc,
            &self.files,
            &mut self.writer,
            folder,
            name,
            bytes,
        );
        self.faults.answer(done)
    }

    fn get_note(&mut self, alloc: Global, name: &Name) -> Result<Option<Bytes>, Trouble> {
        let done = read_named(alloc, &self.files, self.notes.as_str(), name);
        self.faults.answer(done)
    }

    fn put_note(&mut self, name: &Name, bytes: &[u8]) -> Result<(), Trouble> {
        let folder = self.notes.as_str();
        let done = replace_named(
            self.alloc,
            &self.files,
            &mut self.writer,
            folder,
            name,
            bytes,
        );
        self.faults.answer(done)
    }
}

/// The bytes of a name's file, where a plain file is there. One with more bytes than an object may have counts as none.
fn read_named<R: Files>(
    alloc: Global,
    files: &R,
    folder: &str,
    name: &Name,
) -> io::Result<Option<Bytes>> {
    let path = path_of(alloc, folder, name)?;
    match read_file(alloc, files, path.as_str(), MAX_SIZE as usize) {
        Err(error) if is_absent(&error) => Ok(None),
        read => read,
    }
}

/// Puts bytes in a name's file.
fn replace_named<R: Files>(
    alloc: Global,
    files: &R,
    writer: &mut FileWriter,
    folder: &str,
    name: &Name,
    bytes: &[u8],
) -> io::Result<()> {
    let path = path_of(alloc, folder, name)?;
    writer.replace(alloc, files, folder, path.as_str(), bytes)
}

/// The path of a name's file.
fn path_of(alloc: Global, folder: &str, name: &Name) -> Result<String, AllocError> {
    let mut spelled = [0u8; SPELLING_LEN];
    name.spell(&mut spelled);
    path_in(alloc, folder, &spelled)
}
