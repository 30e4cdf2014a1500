//! One connection of a worker.

ghost use Rattle.std.specs.Prelude.{IfSome};
ghost use Rattle.worker_link.specs.Ends.{HasEndCause};
ghost use Rattle.worker_link.specs.Serving.{Serves};

use object_name::{Sink, Source};
use std::alloc::Global;
use thunk_codec::Runner;
use worker_link::{WorkerEnd, serve};

/// Answers each job of one connection, in order, until it ends. It may wait for whoever is at the other end.
pub fn worker_top<R: Runner, S: Source, O: Sink>(
    alloc: Global,
    runner: &mut R,
    source: &mut S,
    sink: &mut O,
) -> WorkerEnd
    ensures session { IfSome (S.left source.old) (λ bytes. Serves R.tells R.outcome bytes (O.written sink.old) (O.written sink.new) result) }
    ensures cause { HasEndCause (record { runs = R.faults runner.old; reads = S.faults source.old; writes = O.faults sink.old }) (record { runs = R.faults runner.new; reads = S.faults source.new; writes = O.faults sink.new }) result }
{
    serve(alloc, runner, source, sink)
}
