//! A source over a std reader.

ghost use Rattle.std.specs.Prelude.{◌≡◌};

use crate::source::Source;
use crate::trouble::Trouble;
use std::io::Read;

/// A source over a std reader. A read that fails or is interrupted is a fault.
#[derive(Drop)]
pub struct ReadSource<R> {
    reader: R,
    faults: u64,
    reads: u64,
}

impl<R: Read> ReadSource<R> {
    pub fn new(reader: R) -> Self
        ensures left { ⟦<ReadSource<R> as Source>⟧.left result ≡ R.remaining reader }
        ensures faults { ⟦<ReadSource<R> as Source>⟧.faults result ≡ 0 }
        ensures reads { ⟦<ReadSource<R> as Source>⟧.reads result ≡ 0 }
    {
        ReadSource {
            reader,
            faults: 0,
            reads: 0,
        }
    }

    /// How often a read has failed. The count stands still at its last value.
    pub fn faults(&self) -> u64
        ensures { result ≡ ⟦<ReadSource<R> as Source>⟧.faults self.now }
    {
        self.faults
    }

    pub fn into_inner(self) -> R
        ensures { R.remaining result ≡ ⟦<ReadSource<R> as Source>⟧.left self }
    {
        let ReadSource {
            reader,
            faults: _,
            reads: _,
        } = self;
        reader
    }
}

impl<R: Read> Source for ReadSource<R> {
    ghost left = { λ s. R.remaining s.reader };

    ghost faults = { λ s. s.faults };

    ghost reads = { λ s. s.reads };

    fn read(&mut self, buf: &mut [u8]) -> Result<usize, Trouble> {
        self.reads = self.reads.saturating_add(1);
        match self.reader.read(buf) {
            Ok(count) => Ok(count),
            Err(_) => {
                self.faults = self.faults.saturating_add(1);
                Err(Trouble::Failed)
            }
        }
    }
}
