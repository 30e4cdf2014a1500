//! Where bytes go.

ghost use Rattle.std.specs.Prelude.{◌≡◌, ◌≤◌, ◌<◌, ◌++◌, ℕ, List, take, length, Option, IfOk, OnOk, OnErr, Result};
ghost use Rattle.std.specs.Io.KnownBytes.{Appends, Keeps};
ghost use Rattle.object_name.specs.Causes.{HasCause};
ghost use Rattle.object_name.specs.Streams.{AppendsPrefix};

use crate::trouble::Trouble;

/// Where bytes go.
pub trait Sink {
    /// The bytes written so far, where they are told.
    ghost written: { Self → Option (List ℕ) };

    /// How often a write has failed.
    ghost faults: { Self → ℕ };

    /// Takes at least one byte of a piece that isn't empty, and says how many it took.
    fn write(&mut self, bytes: &[u8]) -> Result<usize, Trouble>
        requires { 0 < length bytes.now }
        ensures count { IfOk result (λ n. (0 < n) × (n ≤ length bytes.now)) }
        ensures took { IfOk result (λ n. Appends (written self.old) (written self.new) (take n bytes.now)) }
        ensures kept { OnErr result (Keeps (written self.old) (written self.new)) }
        ensures cause { HasCause (faults self.old) (faults self.new) result };
}

/// Writes all the bytes. After a refusal a prefix of them is written.
pub fn write_all<S: Sink>(sink: &mut S, bytes: &[u8]) -> Result<(), Trouble>
    ensures ok { OnOk result (Appends (S.written sink.old) (S.written sink.new) bytes.now) }
    ensures prefix { AppendsPrefix (S.written sink.old) (S.written sink.new) bytes.now }
    ensures cause { HasCause (S.faults sink.old) (S.faults sink.new) result }
{
    let mut at = 0;
    'pieces: while at < bytes.len() {
        at += sink.write(&bytes[at..])?;
    }
    Ok(())
}
