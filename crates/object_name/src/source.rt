//! Where bytes come from.

ghost use Rattle.std.specs.Prelude.{◌≡◌, ◌≤◌, ◌<◌, ◌+◌, ℕ, List, take, length, Option, Ok, IfOk, IfSome, OnOk, OnErr, IsErrOf, Result};
ghost use Rattle.std.specs.Io.KnownBytes.{Consumes, Keeps, IsAtEnd};
ghost use Rattle.object_name.specs.Causes.{HasCause, Rose};
ghost use Rattle.object_name.specs.Calls.{risen};
ghost use Rattle.object_name.specs.ReadEnd.{reading_faults};
ghost use Rattle.object_name.specs.Streams.{LosesPrefix, LosesUpTo};

use crate::bytes::Bytes;
use crate::trouble::Trouble;
use std::alloc::{AllocError, Global};

/// Where bytes come from.
pub trait Source {
    /// The bytes left, where they are told.
    ghost left: { Self → Option (List ℕ) };

    /// How often a read has failed.
    ghost faults: { Self → ℕ };

    /// How often a read was made.
    ghost reads: { Self → ℕ };

    /// Fills a prefix of a buffer that isn't empty, and says how many bytes it gave. 0 is the end of input.
    fn read(&mut self, buf: &mut [u8]) -> Result<usize, Trouble>
        requires { 0 < length buf.old }
        ensures count { IfOk result (λ n. n ≤ length buf.new) }
        ensures gave { IfOk result (λ n. Consumes (left self.old) (left self.new) (take n buf.new)) }
        ensures end { result ≡ Ok 0 → IsAtEnd (left self.new) }
        ensures kept { OnErr result (Keeps (left self.old) (left self.new)) }
        ensures cause { HasCause (faults self.old) (faults self.new) result }
        ensures one { reads self.new ≡ risen (reads self.old) };
}

/// Why a source wasn't read to its end.
#[derive(Clone, Copy, Debug, PartialEq, Eq)]
pub enum ReadEnd {
    /// There is more than the limit.
    TooLong,
    /// The source failed: its count of faults rose.
    Failed,
    /// Memory was refused.
    Memory,
}

impl From<Trouble> for ReadEnd {
    ghost use Rattle.object_name.specs.ReadEnd.{end_of_trouble};

    ghost from_gives = { λ t e. e ≡ end_of_trouble t };

    fn from(trouble: Trouble) -> Self {
        match trouble {
            Trouble::Failed => ReadEnd::Failed,
            Trouble::Memory => ReadEnd::Memory,
        }
    }
}

impl From<AllocError> for ReadEnd {
    ghost use Rattle.object_name.specs.declared.source.ReadEnd.TheVariants.{Memory};

    ghost from_gives = { λ _ e. e ≡ Memory };

    fn from(_: AllocError) -> Self {
        ReadEnd::Memory
    }
}

/// How many bytes are asked for at once.
const PIECE: usize = 4096;

/// How many bytes to ask for where so many are left of the limit: at most one past it.
fn wanted(room: usize) -> usize
    ensures some { 0 < result }
    ensures limit { result ≤ room + 1 }
    ensures piece { result ≤ PIECE }
{
    if room < PIECE { room + 1 } else { PIECE }
}

/// Reads to the end of input. Where more than `limit` bytes are left, one byte past it is read. After another refusal a
/// prefix of what was left is read.
pub fn read_all<S: Source>(alloc: Global, source: &mut S, limit: usize) -> Result<Bytes, ReadEnd>
    ensures whole { IfOk result (λ bytes. IfSome (S.left source.old) (λ all. bytes ≡ all)) }
    ensures end { OnOk result (IsAtEnd (S.left source.new)) }
    ensures fits { IfOk result (λ bytes. length bytes ≤ limit) }
    ensures too_long { IsErrOf result ReadEnd.TooLong → LosesPrefix (S.left source.old) (S.left source.new) (limit + 1) }
    ensures over { IsErrOf result ReadEnd.TooLong → IfSome (S.left source.old) (λ all. limit < length all) }
    ensures prefix { LosesUpTo (S.left source.old) (S.left source.new) (limit + 1) }
    ensures failed { IsErrOf result ReadEnd.Failed → Rose (S.faults source.old) (S.faults source.new) }
    ensures later { S.faults source.old ≤ S.faults source.new }
    ensures most { S.faults source.new ≤ S.faults source.old + reading_faults result }
    ensures reads { S.reads source.new ≤ S.reads source.old + limit + 2 }
{
    let mut bytes = Bytes::new(alloc);
    let mut piece = [0u8; PIECE];
    'pieces: loop {
        let room = limit - bytes.len();
        let want = wanted(room);
        let count = source.read(&mut piece[..want])?;
        if count == 0 {
            return Ok(bytes);
        }
        if count > room {
            return Err(ReadEnd::TooLong);
        }
        bytes.append(&piece[..count])?;
    }
}
