//! A sink over a std writer.

ghost use Rattle.std.specs.Prelude.{◌≡◌, IfOk};
ghost use Rattle.object_name.specs.Causes.{HasCause};

use crate::sink::Sink;
use crate::trouble::Trouble;
use std::io::Write;

/// A sink over a std writer. A write that fails, is interrupted or takes no byte is a fault.
#[derive(Drop)]
pub struct WriteSink<W> {
    writer: W,
    faults: u64,
}

impl<W: Write> WriteSink<W> {
    pub fn new(writer: W) -> Self
        ensures written { ⟦<WriteSink<W> as Sink>⟧.written result ≡ W.contents writer }
        ensures faults { ⟦<WriteSink<W> as Sink>⟧.faults result ≡ 0 }
    {
        WriteSink { writer, faults: 0 }
    }

    /// How often a write has failed. The count stands still at its last value.
    pub fn faults(&self) -> u64
        ensures { result ≡ ⟦<WriteSink<W> as Sink>⟧.faults self.now }
    {
        self.faults
    }

    pub fn into_inner(self) -> W
        ensures { W.contents result ≡ ⟦<WriteSink<W> as Sink>⟧.written self }
    {
        let WriteSink { writer, faults: _ } = self;
        writer
    }
}

impl<W: Write> Sink for WriteSink<W> {
    ghost written = { λ s. W.contents s.writer };

    ghost faults = { λ s. s.faults };

    fn write(&mut self, bytes: &[u8]) -> Result<usize, Trouble> {
        match self.writer.write(bytes) {
            Ok(taken) if taken > 0 => Ok(taken),
            _ => {
                self.faults = self.faults.saturating_add(1);
                Err(Trouble::Failed)
            }
        }
    }
}
