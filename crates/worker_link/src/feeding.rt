//! Reading more of a session.

ghost use Rattle.std.specs.Prelude.{◌≡◌, ◌≤◌, Ok, true, false, IfErr};
ghost use Rattle.worker_link.specs.Ends.{IsFed, HasEnded, IsFeedFault};

use job_wire::Cutter;
use object_name::{Source, Trouble};

/// How many bytes are asked for at once.
const PIECE: usize = 4096;

/// Why no more of a session was fed.
#[derive(Clone, Copy, Debug, PartialEq, Eq)]
pub(crate) enum FeedFault {
    /// The source failed: its count rose.
    SourceFailed,
    /// The session would have 2^64 bytes.
    TooMuch,
    /// Memory was refused.
    Memory,
}

/// Feeds the bytes that come next. None come where the input has ended.
pub(crate) fn feed_more<S: Source>(cutter: &mut Cutter, source: &mut S) -> Result<bool, FeedFault>
    ensures fed { result ≡ Ok true → IsFed cutter.old cutter.new (S.left source.old) (S.left source.new) }
    ensures end { result ≡ Ok false → HasEnded cutter.old cutter.new (S.left source.old) (S.left source.new) }
    ensures later { S.faults source.old ≤ S.faults source.new }
    ensures err { IfErr result (IsFeedFault (S.faults source.old) (S.faults source.new) cutter.old (S.left source.old) (S.left source.new)) }
{
    let mut piece = [0u8; PIECE];
    let count = match source.read(&mut piece) {
        Ok(count) => count,
        Err(Trouble::Failed) => return Err(FeedFault::SourceFailed),
        Err(Trouble::Memory) => return Err(FeedFault::Memory),
    };
    if count == 0 {
        return Ok(false);
    }
    if cutter.fed() > u64::MAX - count as u64 {
        return Err(FeedFault::TooMuch);
    }
    match cutter.feed(&piece[..count]) {
        Ok(()) => Ok(true),
        Err(_) => Err(FeedFault::Memory),
    }
}
