//! A tree in a folder.

ghost use Rattle.std.specs.Prelude.{◌≡◌, ◌↔◌, [], Ok, IsTrue, IsErr, IfOk};
ghost use Rattle.object_name.specs.Causes.{HasCause};
ghost use Rattle.std.specs.List.{before_first};
ghost use Rattle.thunk_codec.specs.Path.{is_slash};
ghost use Rattle.file_tree.specs.Files.{IsShort, no_files};
ghost use Rattle.file_tree.specs.InStore.{is_in_store};

use crate::tree::{FileRead, Tree};
use folder_files::{FaultCount, FileWriter, is_absent, path_in, read_file, remove_file};
use object_name::{MAX_SIZE, Trouble};
use std::alloc::{AllocError, Global};
use std::io;
use std::io::ErrorKind;
use std::rt::Files;
use thunk_codec::Path;

/// The folder of the store, in the folder of a tree. It is no part of the tree.
pub const STORE: &str = ".gg";

/// A tree in a folder. A path that is a folder, that passes through a file or that leads into the store has no file, and can't
/// be written. It tells nothing, since others may write there.
#[derive(Drop)]
pub struct FolderTree<R> {
    alloc: Global,
    files: R,
    root: String,
    writer: FileWriter,
    faults: FaultCount,
}

impl<R: Files> FolderTree<R> {
    /// A tree in the folder of this path, which need not be there yet, for the process with this number.
    pub fn new(alloc: Global, files: R, root: &str, process: u32) -> Result<Self, AllocError>
    where
        R: Drop,
        ensures { IfOk result (λ t. ⟦<FolderTree<R> as Tree>⟧.faults t ≡ 0) }
    {
        Ok(FolderTree {
            alloc,
            files,
            root: String::from_str(alloc, root)?,
            writer: FileWriter::new(process),
            faults: FaultCount::new(),
        })
    }

    /// How often a call has failed. The count stands still at its last value.
    pub fn faults(&self) -> u64
        ensures { result ≡ ⟦<FolderTree<R> as Tree>⟧.faults self.now }
    {
        self.faults.count()
    }
}

impl<R: Files> Tree for FolderTree<R> {
    ghost tells = { ⊥ };

    ghost files = { λ _. no_files };

    ghost changes = { λ _. [] };

    ghost faults = { λ t. t.faults };

    ghost calls = { λ _. 0 };

    fn read(&mut self, alloc: Global, path: &Path) -> Result<FileRead, Trouble>
        ensures store { IsTrue (is_in_store path.now) → result ≡ Ok FileRead.Absent }
        ensures short { IfOk result IsShort }
        ensures cause { HasCause self.old.faults self.new.faults result }
    {
        let done = read_path(alloc, &self.files, self.root.as_str(), path);
        self.faults.answer(done)
    }

    fn write(&mut self, path: &Path, bytes: &[u8]) -> Result<(), Trouble>
        ensures store { IsTrue (is_in_store path.now) → IsErr result }
        ensures cause { HasCause self.old.faults self.new.faults result }
    {
        let root = self.root.as_str();
        let done = write_path(self.alloc, &self.files, &mut self.writer, root, path, bytes);
        self.faults.answer(done)
    }

    fn remove(&mut self, path: &Path) -> Result<(), Trouble>
        ensures store { IsTrue (is_in_store path.now) → IsErr result }
        ensures cause { HasCause self.old.faults self.new.faults result }
    {
        let done = remove_path(self.alloc, &self.files, self.root.as_str(), path);
        self.faults.answer(done)
    }
}

/// What stands at a path.
fn read_path<R: Files>(alloc: Global, files: &R, root: &str, path: &Path) -> io::Result<FileRead>
    ensures short { IfOk result IsShort }
    ensures store { IsTrue (is_in_store path.now) → result ≡ Ok FileRead.Absent }
{
    if is_in_store(path) {
        return Ok(FileRead::Absent);
    }
    let file_path = path_in(alloc, root, path.text())?;
    match read_file(alloc, files, file_path.as_str(), MAX_SIZE as usize) {
        Ok(Some(bytes)) => Ok(FileRead::Bytes(bytes)),
        Ok(None) => Ok(FileRead::TooLong),
        Err(error) if is_absent(&error) => Ok(FileRead::Absent),
        Err(error) => Err(error),
    }
}

/// Writes a file, and makes the folders that it stands in.
fn write_path<R: Files>(
    alloc: Global,
    files: &R,
    writer: &mut FileWriter,
    root: &str,
    path: &Path,
    bytes: &[u8],
) -> io::Result<()>
    ensures { IsTrue (is_in_store path.now) → IsErr result }
{
    check_in_tree(path)?;
    let file_path = path_in(alloc, root, path.text())?;
    let folder = path_in(alloc, root, path.folder(alloc)?.text())?;
    writer.replace(alloc, files, folder.as_str(), file_path.as_str(), bytes)
}

/// Removes the file at a path, if there is one.
fn remove_path<R: Files>(alloc: Global, files: &R, root: &str, path: &Path) -> io::Result<()>
    ensures { IsTrue (is_in_store path.now) → IsErr result }
{
    check_in_tree(path)?;
    let file_path = path_in(alloc, root, path.text())?;
    match remove_file(files, file_path.as_str()) {
        Err(error) if is_absent(&error) => Ok(()),
        done => done,
    }
}

/// Refuses a path that leads into the store.
fn check_in_tree(path: &Path) -> io::Result<()>
    ensures { IsErr result ↔ IsTrue (is_in_store path.now) }
{
    if is_in_store(path) {
        return Err(io::Error::from(ErrorKind::PermissionDenied));
    }
    Ok(())
}

/// Whether a path leads into the store.
fn is_in_store(path: &Path) -> bool
    ensures { result ≡ is_in_store path.now }
{
    first_component(path.text()) == STORE.as_bytes()
}

/// The bytes before the first `/`, or all where there is none.
fn first_component(text: &[u8]) -> &[u8]
    ensures { result.now ≡ before_first is_slash text.now }
{
    for (i, byte) in text.iter().enumerate() {
        if *byte == b'/' {
            return &text[..i];
        }
    }
    text
}
