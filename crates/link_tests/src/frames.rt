//! The frames of a session, the job that is sent in it, and ends in memory.

ghost use Rattle.std.specs.Prelude.{IfOk};
ghost use Rattle.std.specs.Arc.{arc_value};
ghost use Rattle.job_wire.specs.Frame.{IsJob};

use job_wire::{Cutter, Message};
use object_name::{Bytes, Many, MemSink, MemSource};
use std::alloc::{AllocError, Global};
use std::sync::Arc;
use std::test::Fail;
use thunk_codec::{Job, Outcome};

/// The frame of the job of `cat` over the input `a`, which is `x`, with the output `out`, under the lease 0.
pub const START: &[u8] =
    b"\0\0\0\x3aJ\0\0\0\0\0\0\0\0\0\0\0\x0cgg-tool cat\n\0\0\0\0\0\0\0\0\0\0\0\x01\0\0\0\x01a\0\0\0\x01x\0\0\0\x01\0\0\0\x03out";

/// The frame of its outcome.
pub const REPLY: &[u8] = b"\0\0\0\x13R\0\0\0\0\0\0\0\0\0\0\0\0\x01\0\0\0\x01x";

/// The frame at the end of a session.
pub const BYE: &[u8] = b"\0\0\0\x01B";

/// The job of that frame.
pub fn job(alloc: Global) -> Result<Arc<Job>, Fail>
    ensures { IfOk result (λ job. IsJob (arc_value job)) }
{
    let mut cutter = Cutter::new(alloc);
    cutter.feed(START)?;
    let Ok(Some(Message::Start(_, job))) = cutter.next(alloc) else {
        return Err(Fail::from("there is no job"));
    };
    Ok(Arc::new(alloc, job)?)
}

/// Whether an outcome is the one output `x`.
pub fn is_x(outcome: &Outcome) -> bool {
    let Outcome::Done(outputs) = outcome else {
        return false;
    };
    match outputs.as_slice() {
        [output] => output.as_slice() == b"x".as_slice(),
        _ => false,
    }
}

/// Some pieces, one after another.
pub fn joined(alloc: Global, pieces: &[&[u8]]) -> Result<Bytes, AllocError> {
    let mut bytes = Bytes::new(alloc);
    'pieces: for piece in pieces {
        bytes.append(piece)?;
    }
    Ok(bytes)
}

/// A source of some bytes, which never fails.
pub fn source(alloc: Global, bytes: &[u8]) -> Result<MemSource, AllocError> {
    MemSource::new(Bytes::from_slice(alloc, bytes)?, Many::new(alloc))
}

/// A sink that never fails.
pub fn sink(alloc: Global) -> Result<MemSink, AllocError> {
    MemSink::new(alloc, Many::new(alloc))
}
