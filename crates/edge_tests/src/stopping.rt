//! A runtime of which some calls on files fail, for tests.

use std::alloc::Allocator;
use std::cell::Cell;
use std::fs::{File, Metadata, OpenFile, OpenOptions, Permissions};
use std::io;
use std::io::{ErrorKind, Read, Seek, SeekFrom, Write};
use std::rt::Files;

/// The calls on files, numbered from 1, of which those from `first` to `last` fail.
#[derive(Drop)]
pub struct Calls {
    count: Cell<u64>,
    first: u64,
    last: u64,
}

impl Calls {
    pub fn failing(first: u64, last: u64) -> Self {
        Calls {
            count: Cell::new(0),
            first,
            last,
        }
    }

    fn begin(&self) -> io::Result<()> {
        let number = self.count.get().saturating_add(1);
        self.count.set(number);
        if self.first <= number && number <= self.last {
            return Err(io::Error::from(ErrorKind::Other));
        }
        Ok(())
    }
}

/// The system's files, with calls that fail. A write that fails has written half.
#[derive(Drop)]
pub struct Stopping<'a> {
    pub system: &'a HostRuntime,
    pub calls: &'a Calls,
}

#[derive(Drop)]
pub struct StoppingFile<'a> {
    file: File,
    calls: &'a Calls,
}

impl Read for StoppingFile<'_> {
    fn read(&mut self, buf: &mut [u8]) -> io::Result<usize> {
        self.calls.begin()?;
        self.file.read(buf)
    }
}

impl Write for StoppingFile<'_> {
    fn write(&mut self, buf: &[u8]) -> io::Result<usize> {
        if let Err(error) = self.calls.begin() {
            let _ = self.file.write(&buf[..buf.len() / 2])?;
            return Err(error);
        }
        self.file.write(buf)
    }

    fn flush(&mut self) -> io::Result<()> {
        Ok(())
    }
}

impl Seek for StoppingFile<'_> {
    fn seek(&mut self, to: SeekFrom) -> io::Result<u64> {
        self.calls.begin()?;
        self.file.seek(to)
    }
}

impl OpenFile for StoppingFile<'_> {
    fn metadata(&self) -> io::Result<Metadata> {
        self.calls.begin()?;
        self.file.metadata()
    }

    fn set_len(&self, size: u64) -> io::Result<()> {
        self.calls.begin()?;
        self.file.set_len(size)
    }

    fn sync_all(&self) -> io::Result<()> {
        self.calls.begin()?;
        self.file.sync_all()
    }

    fn sync_data(&self) -> io::Result<()> {
        self.calls.begin()?;
        self.file.sync_data()
    }

    fn set_permissions(&self, permissions: Permissions) -> io::Result<()> {
        self.calls.begin()?;
        self.file.set_permissions(permissions)
    }
}

impl<'a> Files for Stopping<'a> {
    type File = StoppingFile<'a>;

    type Dir = <HostRuntime as Files>::Dir;

    fn open_file(&self, how: &OpenOptions, path: &str) -> io::Result<StoppingFile<'a>> {
        self.calls.begin()?;
        let file = self.system.open_file(how, path)?;
        Ok(StoppingFile {
            file,
            calls: self.calls,
        })
    }

    fn open_dir(&self, path: &str) -> io::Result<<HostRuntime as Files>::Dir> {
        self.calls.begin()?;
        self.system.open_dir(path)
    }

    fn metadata(&self, path: &str) -> io::Result<Metadata> {
        self.calls.begin()?;
        self.system.metadata(path)
    }

    fn symlink_metadata(&self, path: &str) -> io::Result<Metadata> {
        self.calls.begin()?;
        self.system.symlink_metadata(path)
    }

    fn copy(&self, from: &str, to: &str) -> io::Result<u64> {
        self.calls.begin()?;
        self.system.copy(from, to)
    }

    fn rename(&self, from: &str, to: &str) -> io::Result<()> {
        self.calls.begin()?;
        self.system.rename(from, to)
    }

    fn remove_file(&self, path: &str) -> io::Result<()> {
        self.calls.begin()?;
        self.system.remove_file(path)
    }

    fn create_dir(&self, path: &str) -> io::Result<()> {
        self.calls.begin()?;
        self.system.create_dir(path)
    }

    fn remove_dir(&self, path: &str) -> io::Result<()> {
        self.calls.begin()?;
        self.system.remove_dir(path)
    }

    fn remove_dir_all<B: Allocator>(&self, alloc: B, path: &str) -> io::Result<()> {
        self.calls.begin()?;
        self.system.remove_dir_all(alloc, path)
    }
}
