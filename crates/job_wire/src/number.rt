//! Numbers at the front of some bytes.

ghost use Rattle.std.specs.Prelude.{◌≡◌, Some, None, MatchOption};
ghost use Rattle.job_wire.specs.Gives.{Gives};
ghost use Rattle.job_wire.specs.Reading.{count_at, lease_at};

use crate::fault::ReadFault;

/// A count, and the bytes after it, where there are bytes enough.
#[tactic(auto, unfolding(crate::specs::Reading::count_at))]
pub(crate) fn number_at(bytes: &[u8]) -> Option<(u32, &[u8])>
    ensures { MatchOption result (count_at bytes.now ≡ None) (λ read. count_at bytes.now ≡ Some (read.0, read.1.now)) }
{
    if bytes.len() < 4 {
        return None;
    }
    let (front, rest) = bytes.split_at(4);
    let number = u32::from_be_bytes([front[0], front[1], front[2], front[3]]);
    Some((number, rest))
}

/// A count, and the bytes after it.
pub(crate) fn count_at(bytes: &[u8]) -> Result<(u32, &[u8]), ReadFault>
    ensures { Gives (λ read. (read.0, read.1.now)) result (count_at bytes.now) }
{
    match number_at(bytes) {
        Some(read) => Ok(read),
        None => Err(ReadFault::Bad),
    }
}

/// The number of a lease, and the bytes after it.
#[tactic(auto, unfolding(crate::specs::Reading::lease_at))]
pub(crate) fn lease_at(bytes: &[u8]) -> Result<(u64, &[u8]), ReadFault>
    ensures { Gives (λ read. (read.0, read.1.now)) result (lease_at bytes.now) }
{
    if bytes.len() < 8 {
        return Err(ReadFault::Bad);
    }
    let (front, rest) = bytes.split_at(8);
    let number = u64::from_be_bytes([
        front[0], front[1], front[2], front[3], front[4], front[5], front[6], front[7],
    ]);
    Ok((number, rest))
}
