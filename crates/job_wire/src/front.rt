//! What stands at the front of some bytes.

ghost use Rattle.job_wire.specs.Cut.{Sees};

use crate::fault::ReadFault;
use crate::frame::message_of;
use crate::message::Message;
use crate::number::number_at;
use std::alloc::Global;

/// The greatest length of a frame's contents: a letter, the number of a lease, and the longest encoding of a job.
const MAX_CONTENTS: u32 = 67_108_873;

/// What stands at the front of some bytes.
pub(crate) enum Found {
    /// Less than a frame, and no length over the limit.
    Short,
    /// A length over the limit.
    TooLong(u32),
    /// A whole frame, but of no message.
    Bad,
    /// A whole frame, for whose message memory was refused.
    Memory,
    /// The frame of a message, and how many bytes it has.
    Whole(Message, usize),
}

/// Reads the frame at the front, where it is whole.
pub(crate) fn front_of(alloc: Global, bytes: &[u8]) -> Found
    ensures { Sees result bytes.now }
{
    let Some((len, rest)) = number_at(bytes) else {
        return Found::Short;
    };
    if len > MAX_CONTENTS {
        return Found::TooLong(len);
    }
    let len = len as usize;
    if len > rest.len() {
        return Found::Short;
    }
    match message_of(alloc, &rest[..len]) {
        Ok(message) => Found::Whole(message, 4 + len),
        Err(ReadFault::Bad) => Found::Bad,
        Err(ReadFault::Memory) => Found::Memory,
    }
}
