//! Whole files, over the files of a runtime.

ghost use Rattle.std.specs.Prelude.{◌≡◌, ◌≤◌, length, nat_le, Some, None, string_bytes, IfOk, IfSome, if◌then◌else◌};
ghost use Rattle.std.specs.Str.{IsAscii};
ghost use Rattle.folder_files.specs.Beside.{path_in};

use object_name::{Bytes, ReadEnd, ReadSource, read_all};
use std::alloc::{AllocError, Global};
use std::fs::File;
use std::io;
use std::io::{ErrorKind, Read};
use std::rt::Files;

/// The path of what stands in a folder.
pub fn path_in(alloc: Global, folder: &str, inside: &[u8]) -> Result<String, AllocError>
    ensures { IsAscii inside.now → IfOk result (λ path. string_bytes path ≡ path_in folder.now inside.now) }
{
    let mut path = format!(in alloc; "{folder}/")?;
    'letters: for letter in inside {
        path.push(char::from(*letter))?;
    }
    Ok(path)
}

/// The bytes of a file, where they are no more than the limit, and else nothing. What leads to no plain file, over links,
/// fails with an error that `is_absent` knows. It is looked at before it is opened, since opening a pipe would wait.
pub fn read_file<R: Files>(
    alloc: Global,
    files: &R,
    path: &str,
    limit: usize,
) -> io::Result<Option<Bytes>>
    ensures { IfOk result (λ read. IfSome read (λ bytes. length bytes ≤ limit)) }
{
    if !files.metadata(path)?.is_file() {
        return Err(io::Error::from(ErrorKind::NotFound));
    }
    read_bytes(alloc, File::open(files, path)?, limit)
}

/// The bytes that a reader has, where they are no more than the limit.
fn read_bytes<F: Read + Drop>(alloc: Global, reader: F, limit: usize) -> io::Result<Option<Bytes>>
    ensures exact { IfOk result (λ read. IfSome (F.remaining reader) (λ all. read ≡ (if nat_le (length all) limit then Some all else None))) }
    ensures short { IfOk result (λ read. IfSome read (λ bytes. length bytes ≤ limit)) }
{
    match read_all(alloc, &mut ReadSource::new(reader), limit) {
        Ok(bytes) => Ok(Some(bytes)),
        Err(ReadEnd::TooLong) => Ok(None),
        Err(ReadEnd::Failed) => Err(io::Error::from(ErrorKind::Other)),
        Err(ReadEnd::Memory) => Err(io::Error::from(ErrorKind::OutOfMemory)),
    }
}

/// Removes what stands at a path, but for a folder.
pub fn remove_file<R: Files>(files: &R, path: &str) -> io::Result<()> {
    files.remove_file(path)
}

/// Whether an error says that a path leads to no plain file: nothing stands there, it is a folder or passes through a file,
/// the system has no names that long, or the links go round.
pub fn is_absent(error: &io::Error) -> bool {
    matches!(
        error.kind(),
        ErrorKind::NotFound
            | ErrorKind::NotADirectory
            | ErrorKind::IsADirectory
            | ErrorKind::InvalidFilename
            | ErrorKind::FilesystemLoop
    )
}
