//! The line of each end of a connection.

ghost use Rattle.gg_cli.specs.ConnectionEnds.{end_line};
ghost use Rattle.gg_cli.specs.Writing.{Writes};

use crate::pieces::Piece::{Number, Text};
use crate::pieces::write_line;
use object_name::{Sink, Trouble};
use std::alloc::Global;
use worker_link::WorkerEnd;

/// Writes the line of how a connection of a worker ended: all of it, or a prefix where the sink failed or memory ran out.
pub fn say_end<E: Sink>(alloc: Global, err: &mut E, end: &WorkerEnd) -> Result<(), Trouble>
    ensures { Writes (end_line end.now) (E.written err.old) (E.written err.new) (E.faults err.old) (E.faults err.new) result }
{
    match end {
        WorkerEnd::Ended => Ok(()),
        WorkerEnd::Cut => write_line(alloc, err, &[Text(b"connection cut")]),
        WorkerEnd::BadFrame { at } => {
            write_line(alloc, err, &[Text(b"bad frame at "), Number(*at)])
        }
        WorkerEnd::FrameTooLong { at, .. } => {
            write_line(alloc, err, &[Text(b"frame too long at "), Number(*at)])
        }
        WorkerEnd::TooMuch => write_line(alloc, err, &[Text(b"session too long")]),
        WorkerEnd::SourceFailed => write_line(alloc, err, &[Text(b"input fault")]),
        WorkerEnd::SinkFailed => write_line(alloc, err, &[Text(b"output fault")]),
        WorkerEnd::RunFailed => write_line(alloc, err, &[Text(b"child fault")]),
        WorkerEnd::Memory => write_line(alloc, err, &[Text(b"want of memory")]),
    }
}
