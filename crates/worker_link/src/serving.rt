//! A worker: it answers each job of a session.

ghost use Rattle.std.specs.Prelude.{◌≡◌, ◌≤◌, IfOk, IfErr, IfSome, OnOk};
ghost use Rattle.std.specs.Io.KnownBytes.{Appends};
ghost use Rattle.object_name.specs.Streams.{AppendsPrefix};
ghost use Rattle.thunk_codec.specs.Outcome.{Fits};
ghost use Rattle.job_wire.specs.Frame.{IsJob};
ghost use Rattle.worker_link.specs.Ends.{HasEndCause, IsRunEnd, IsAnswerEnd};
ghost use Rattle.worker_link.specs.Serving.{Serves, reply};

use crate::feeding::{FeedFault, feed_more};
use crate::worker_end::WorkerEnd;
use job_wire::{CutFault, Cutter, Message, encode_frame};
use object_name::{Sink, Source, Trouble, write_all};
use std::alloc::Global;
use thunk_codec::{Job, Outcome, Runner};

/// The outcome of a job.
fn run<R: Runner>(alloc: Global, runner: &mut R, job: &Job) -> Result<Outcome, WorkerEnd>
    ensures fits { IfOk result (λ outcome. Fits job.now outcome) }
    ensures told { R.tells job.now → IfOk result (λ outcome. outcome ≡ R.outcome job.now) }
    ensures later { R.faults runner.old ≤ R.faults runner.new }
    ensures err { IfErr result (IsRunEnd (R.faults runner.old) (R.faults runner.new)) }
{
    match runner.run(alloc, job) {
        Ok(outcome) => Ok(outcome),
        Err(Trouble::Failed) => Err(WorkerEnd::RunFailed),
        Err(Trouble::Memory) => Err(WorkerEnd::Memory),
    }
}

/// Runs a job and writes its reply.
fn answer<R: Runner, O: Sink>(
    alloc: Global,
    runner: &mut R,
    lease: u64,
    job: Job,
    sink: &mut O,
) -> Result<(), WorkerEnd>
    requires { IsJob job }
    ensures ok { OnOk result (R.tells job → Appends (O.written sink.old) (O.written sink.new) (reply R.outcome (lease, job))) }
    ensures prefix { R.tells job → AppendsPrefix (O.written sink.old) (O.written sink.new) (reply R.outcome (lease, job)) }
    ensures run_later { R.faults runner.old ≤ R.faults runner.new }
    ensures write_later { O.faults sink.old ≤ O.faults sink.new }
    ensures err { IfErr result (IsAnswerEnd (R.faults runner.old) (R.faults runner.new) (O.faults sink.old) (O.faults sink.new)) }
{
    let outcome = run(alloc, runner, &job)?;
    let Ok(bytes) = encode_frame(alloc, &Message::Reply(lease, outcome)) else {
        return Err(WorkerEnd::Memory);
    };
    match write_all(sink, bytes.as_slice()) {
        Ok(()) => Ok(()),
        Err(Trouble::Failed) => Err(WorkerEnd::SinkFailed),
        Err(Trouble::Memory) => Err(WorkerEnd::Memory),
    }
}

/// Answers each job of a session, in order, until the session ends.
pub fn serve<R: Runner, S: Source, O: Sink>(
    alloc: Global,
    runner: &mut R,
    source: &mut S,
    sink: &mut O,
) -> WorkerEnd
    ensures session { IfSome (S.left source.old) (λ bytes. Serves R.tells R.outcome bytes (O.written sink.old) (O.written sink.new) result) }
    ensures cause { HasEndCause (record { runs = R.faults runner.old; reads = S.faults source.old; writes = O.faults sink.old }) (record { runs = R.faults runner.new; reads = S.faults source.new; writes = O.faults sink.new }) result }
{
    let mut cutter = Cutter::new(alloc);
    'frames: loop {
        let at = cutter.at();
        match cutter.next(alloc) {
            Ok(Some(Message::Start(lease, job))) => {
                if let Err(end) = answer(alloc, runner, lease, job, sink) {
                    return end;
                }
            }
            Ok(Some(Message::Reply(_, _))) => return WorkerEnd::BadFrame { at },
            Ok(Some(Message::Bye)) => return WorkerEnd::Ended,
            Ok(None) => match feed_more(&mut cutter, source) {
                Ok(true) => {}
                Ok(false) => {
                    if cutter.at_rest() {
                        return WorkerEnd::Ended;
                    }
                    return WorkerEnd::Cut;
                }
                Err(FeedFault::SourceFailed) => return WorkerEnd::SourceFailed,
                Err(FeedFault::TooMuch) => return WorkerEnd::TooMuch,
                Err(FeedFault::Memory) => return WorkerEnd::Memory,
            },
            Err(CutFault::FrameTooLong { at, len }) => return WorkerEnd::FrameTooLong { at, len },
            Err(CutFault::BadFrame { at }) => return WorkerEnd::BadFrame { at },
            Err(CutFault::Memory) => return WorkerEnd::Memory,
        }
    }
}
