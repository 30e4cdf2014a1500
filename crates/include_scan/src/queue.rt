//! The files that were visited, and those of them that wait for a look at their lines.

ghost use Rattle.std.specs.Prelude.{◌≡◌, ◌≢◌, ◌≤◌, ℕ, List, [], Option, false, IfErr, OnOk, length};
ghost use Rattle.thunk_codec.specs.Files.{Files};
ghost use Rattle.file_tree.specs.Files.{file_read};
ghost use Rattle.text_lines.specs.Among.{is_among};
ghost use Rattle.include_scan.specs.Scanning.{max_files, visit_file, visit_found};
ghost use Rattle.include_scan.specs.Queue.{IsFound, IsNext, Judges, Visits, Waits};

use crate::fault::ScanFault;
use crate::found::Found;
use file_tree::{FileRead, FileRefusal};
use indexmap::IndexSet;
use object_name::{Bytes, TryCopy};
use std::alloc::Global;
use std::collections::VecDeque;
use thunk_codec::{Path, read_placeholder};

/// The greatest number of files.
pub(crate) const MAX_FILES: usize = 4096;

/// The paths that were visited, in the order of visits, and the last of them with their bytes, which wait.
#[derive(Drop)]
pub(crate) struct Queue {
    pub(crate) visited: IndexSet<Path>,
    pub(crate) waiting: VecDeque<(Path, Bytes)>,
}

impl Queue {
    /// Nothing was visited.
    pub(crate) fn new(alloc: Global) -> Self
        ensures visited { result.visited.keys ≡ [] }
        ensures waiting { result.waiting.items ≡ [] }
    {
        Queue {
            visited: IndexSet::new(alloc),
            waiting: VecDeque::new(alloc),
        }
    }

    /// Adds a new file, by what was read.
    pub(crate) fn add(&mut self, alloc: Global, path: Path, read: FileRead) -> Result<(), ScanFault>
        ensures exact { (files : Files) (index : ℕ) → Waits files index self.old → is_among self.old.visited.keys path ≡ false → read ≡ file_read (files path)
            → Visits files index self.new (visit_file files path self.old.visited.keys) result }
        ensures few { OnOk result (length self.old.visited.keys ≤ max_files → length self.new.visited.keys ≤ max_files) }
        ensures cause { IfErr result (λ fault. fault ≢ ScanFault.Failed) }
    {
        if self.visited.len() >= MAX_FILES {
            return Err(ScanFault::TooMany);
        }
        let bytes = judge(alloc, &path, read)?;
        self.visited.insert(path.copy(alloc)?)?;
        self.waiting.push_back((path, bytes))?;
        Ok(())
    }

    /// Adds the file that was found, if it is new.
    pub(crate) fn visit(&mut self, alloc: Global, found: Found) -> Result<(), ScanFault>
        ensures exact { (files : Files) (index : ℕ) (wanted : Option (List ℕ)) → Waits files index self.old → IsFound files self.old.visited.keys wanted found
            → Visits files index self.new (visit_found files wanted self.old.visited.keys) result }
        ensures few { OnOk result (length self.old.visited.keys ≤ max_files → length self.new.visited.keys ≤ max_files) }
        ensures cause { IfErr result (λ fault. fault ≢ ScanFault.Failed) }
    {
        match found {
            Found::Nowhere => Ok(()),
            Found::Visited => Ok(()),
            Found::New(path, read) => self.add(alloc, path, read),
        }
    }

    /// The next file that waits.
    pub(crate) fn next(&mut self) -> Option<(Path, Bytes)>
        ensures next { (files : Files) (index : ℕ) → Waits files index self.old → IsNext files index self.old self.new result }
        ensures kept { self.new.visited ≡ self.old.visited }
    {
        self.waiting.pop_front()
    }
}

/// The bytes of a file, unless it is refused.
fn judge(alloc: Global, path: &Path, read: FileRead) -> Result<Bytes, ScanFault>
    ensures { Judges path.now read result }
{
    let bytes = match read {
        FileRead::Absent => return Err(ScanFault::Refused(FileRefusal::NoFile(path.copy(alloc)?))),
        FileRead::TooLong => return Err(ScanFault::Refused(FileRefusal::TooLong(path.copy(
            alloc,
        )?))),
        FileRead::Bytes(bytes) => bytes,
    };
    if read_placeholder(bytes.as_slice()).is_some() {
        return Err(ScanFault::Refused(FileRefusal::Generated(path.copy(alloc)?)));
    }
    Ok(bytes)
}
