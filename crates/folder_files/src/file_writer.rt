//! Files that take the places of others.

ghost use Rattle.std.specs.Prelude.{◌≡◌, ◌≢◌, ℕ, List, string_bytes, IfOk};
ghost use Rattle.std.specs.Str.{IsAscii};
ghost use Rattle.folder_files.specs.Beside.{path_in, name_beside};

use crate::whole_file::is_absent;
use std::alloc::{AllocError, Global};
use std::fs::{OpenFile, OpenOptions, Permissions};
use std::io::{ErrorKind, Write};
use std::os::unix::fs::{OpenOptionsExt, PermissionsExt};
use std::rt::Files;
use std::{fs, io};

/// How many names are tried for a file that is written beside others.
const MAX_TRIES: u32 = 65_536;

/// Writes files for a process. Each is written beside the one that it replaces, under a name that no file has yet, and then
/// takes its place, so that a file is whole at each moment, whoever else writes it.
#[derive(Debug, Drop)]
pub struct FileWriter {
    process: u32,
    named: u64,
}

/// A file that is written beside others.
#[derive(Drop)]
struct FileBeside<F> {
    path: String,
    file: F,
}

impl FileWriter {
    /// A writer for the process with this number.
    pub fn new(process: u32) -> Self {
        FileWriter { process, named: 0 }
    }

    /// Puts bytes in the place of a file, which keeps its permissions, and makes the folder that it stands in where that is
    /// missing. A link is replaced, and not what it leads to. What is left of a failed write is removed.
    pub fn replace<R: Files>(
        &mut self,
        alloc: Global,
        files: &R,
        folder: &str,
        path: &str,
        bytes: &[u8],
    ) -> io::Result<()> {
        let permissions = permissions_at(files, path)?;
        let beside = self.file_beside(alloc, files, folder, permissions.as_ref())?;
        let FileBeside { path: new, file } = beside;
        let done = finish(files, file, permissions, bytes, new.as_str(), path);
        if done.is_err() {
            let _ = files.remove_file(new.as_str());
        }
        done
    }

    /// A new file beside others. Where its name is taken, as by what a program that was killed has left, the next is tried.
    fn file_beside<R: Files>(
        &mut self,
        alloc: Global,
        files: &R,
        folder: &str,
        permissions: Option<&Permissions>,
    ) -> io::Result<FileBeside<R::File>> {
        for _ in 0..MAX_TRIES {
            let path = path_beside(alloc, folder, self.process, self.named)?;
            self.named = self.named.wrapping_add(1);
            match new_file(files, folder, path.as_str(), permissions) {
                Ok(file) => return Ok(FileBeside { path, file }),
                Err(error) if error.kind() == ErrorKind::AlreadyExists => {}
                Err(error) => return Err(error),
            }
        }
        Err(io::Error::from(ErrorKind::AlreadyExists))
    }
}

/// The path of a file that a process writes beside others. Nothing that has ASCII for its path in the folder stands there.
fn path_beside(alloc: Global, folder: &str, process: u32, named: u64) -> Result<String, AllocError>
    ensures exact { IfOk result (λ path. string_bytes path ≡ path_in folder.now (name_beside process named)) }
    ensures apart { (inside : List ℕ) → IsAscii inside → path_in folder.now (name_beside process named) ≢ path_in folder.now inside }
{
    format!(in alloc; "{folder}/·{process}.{named}")
}

/// The permissions of the plain file at a path, if there is one.
fn permissions_at<R: Files>(files: &R, path: &str) -> io::Result<Option<Permissions>> {
    match files.metadata(path) {
        Ok(metadata) if metadata.is_file() => Ok(Some(metadata.permissions())),
        Ok(_) => Ok(None),
        Err(error) if is_absent(&error) => Ok(None),
        Err(error) => Err(error),
    }
}

/// A file that wasn't there, in a folder that is made where it is missing.
fn new_file<R: Files>(
    files: &R,
    folder: &str,
    path: &str,
    permissions: Option<&Permissions>,
) -> io::Result<R::File> {
    let mut options = OpenOptions::new();
    options.write(true).create_new(true);
    if let Some(permissions) = permissions {
        // No more than this before all of it is set.
        options.mode(permissions.mode());
    }
    match options.open(files, path) {
        Err(error) if error.kind() == ErrorKind::NotFound => {
            fs::create_dir_all(files, folder)?;
            options.open(files, path)
        }
        made => made,
    }
}

/// Fills a file that was made beside others, and puts it in the place of one.
fn finish<R: Files>(
    files: &R,
    mut file: R::File,
    permissions: Option<Permissions>,
    bytes: &[u8],
    beside: &str,
    path: &str,
) -> io::Result<()> {
    if let Some(permissions) = permissions {
        file.set_permissions(permissions)?;
    }
    file.write_all(bytes)?;
    drop(file);
    files.rename(beside, path)
}
