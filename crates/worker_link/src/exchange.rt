//! What a link over frames keeps between its calls.

ghost use Rattle.std.specs.Prelude.{◌≡◌, ◌⊎◌, ◌≤◌, ◌+◌, ◌++◌, ◌∷◌, [], length, IfOk, IfErr, OnOk, OnErr, IfSome, IsErrOf};
ghost use Rattle.std.specs.Arc.{arc_value};
ghost use Rattle.std.specs.Io.KnownBytes.{Appends, Consumes};
ghost use Rattle.object_name.specs.Causes.{HasCause, Rose};
ghost use Rattle.object_name.specs.Streams.{AppendsPrefix};
ghost use Rattle.job_wire.specs.declared.message.Message.TheVariants.{Start, Reply, Bye};
ghost use Rattle.job_wire.specs.Frame.{IsJob, frame};
ghost use Rattle.worker_link.specs.declared.phase.Phase.TheVariants.{Shut, Idle, Waiting};
ghost use Rattle.worker_link.specs.Link.{IsReply, MaySend, after_reply};
ghost use Rattle.worker_link.specs.Stream.{none_told, some_outcome, input_of, IsNoInput, counted};

use crate::phase::Phase;
use crate::queue::phase_after;
use crate::replying::next_reply;
use crate::sent::{Sent, is_latest};
use job_wire::{Cutter, Message, encode_frame, encode_start};
use object_name::{Many, Sink, Source, Trouble, write_all};
use std::alloc::Global;
use std::sync::Arc;
use thunk_codec::{Job, Outcome};

/// What a link over frames keeps between its calls, beside its source and its sink.
#[derive(Drop)]
pub(crate) struct Exchange {
    pub(crate) cutter: Cutter,
    pub(crate) sent: Many<Sent>,
    pub(crate) phase: Phase,
    pub(crate) failures: u64,
}

impl Exchange {
    /// Nothing was sent.
    pub(crate) fn new(alloc: Global) -> Self
        ensures cutter { result.cutter ≡ record { at = 0; kept = [] } }
        ensures sent { result.sent ≡ [] }
        ensures phase { result.phase ≡ Shut }
        ensures failures { result.failures ≡ 0 }
    {
        Exchange {
            cutter: Cutter::new(alloc),
            sent: Many::new(alloc),
            phase: Phase::Shut,
            failures: 0,
        }
    }

    /// Begins a session.
    pub(crate) fn begin(&mut self, alloc: Global)
        ensures cutter { self.new.cutter ≡ record { at = 0; kept = [] } }
        ensures sent { self.new.sent ≡ self.old.sent }
        ensures phase { self.new.phase ≡ Idle }
        ensures failures { self.new.failures ≡ self.old.failures }
    {
        self.cutter = Cutter::new(alloc);
        self.phase = Phase::Idle;
    }

    /// Notes a trouble, and hands it on.
    pub(crate) fn fail(&mut self, trouble: Trouble) -> Trouble
        ensures trouble { result ≡ trouble }
        ensures cutter { self.new.cutter ≡ self.old.cutter }
        ensures sent { self.new.sent ≡ self.old.sent }
        ensures phase { self.new.phase ≡ Shut }
        ensures later { self.old.failures ≤ self.new.failures }
        ensures failures { self.new.failures ≡ counted self.old.failures trouble }
    {
        self.phase = Phase::Shut;
        self.failures = counted(self.failures, trouble);
        trouble
    }

    /// Sends a job to a sink. It is recorded before its frame is written, so no frame goes out unrecorded.
    pub(crate) fn send<O: Sink>(
        &mut self,
        alloc: Global,
        sink: &mut O,
        lease: u64,
        job: &Arc<Job>,
    ) -> Result<(), Trouble>
        requires { IsJob (arc_value job.now) }
        ensures sent { OnOk result (self.new.sent ≡ self.old.sent ++ (lease, arc_value job.now) ∷ []) }
        ensures waiting { OnOk result (self.new.phase ≡ Waiting) }
        ensures may { OnErr result (MaySend self.old.sent (lease, arc_value job.now) self.new.sent) }
        ensures shut { OnErr result (self.new.phase ≡ Shut) }
        ensures cutter { self.new.cutter ≡ self.old.cutter }
        ensures cause { HasCause self.old.failures self.new.failures result }
        ensures wrote { OnOk result (Appends (O.written sink.old) (O.written sink.new) (frame (Start lease (arc_value job.now)))) }
        ensures prefix { AppendsPrefix (O.written sink.old) (O.written sink.new) (frame (Start lease (arc_value job.now))) }
        ensures sink { HasCause (O.faults sink.old) (O.faults sink.new) result }
    {
        if let Err(trouble) = record_job(&mut self.sent, lease, job) {
            return Err(self.fail(trouble));
        }
        if let Err(trouble) = write_start(alloc, sink, lease, job) {
            return Err(self.fail(trouble));
        }
        self.phase = Phase::Waiting;
        Ok(())
    }

    /// Receives the next reply from a source.
    pub(crate) fn receive<S: Source>(
        &mut self,
        alloc: Global,
        source: &mut S,
    ) -> Result<(u64, Outcome), Trouble>
        ensures reply { IfOk result (λ r. IsReply none_told some_outcome self.old.sent r.0 r.1) }
        ensures phase { IfOk result (λ r. self.new.phase ≡ after_reply self.old.sent r.0) }
        ensures shut { OnErr result (self.new.phase ≡ Shut) }
        ensures same { self.new.sent ≡ self.old.sent }
        ensures cause { HasCause self.old.failures self.new.failures result }
        ensures taken { IfOk result (λ r. Consumes (input_of self.old.cutter (S.left source.old)) (input_of self.new.cutter (S.left source.new)) (frame (Reply r.0 r.1))) }
        ensures at { IfOk result (λ r. self.new.cutter.at ≡ self.old.cutter.at + length (frame (Reply r.0 r.1))) }
        ensures failed { IsErrOf result Trouble.Failed → Rose (S.faults source.old) (S.faults source.new) ⊎ IfSome (input_of self.old.cutter (S.left source.old)) (IsNoInput self.old.sent self.old.cutter.at) }
        ensures later { S.faults source.old ≤ S.faults source.new }
    {
        match next_reply(alloc, self.sent.as_slice(), &mut self.cutter, source) {
            Ok((lease, outcome)) => {
                self.phase = phase_after(is_latest(self.sent.as_slice(), lease));
                Ok((lease, outcome))
            }
            Err(trouble) => Err(self.fail(trouble)),
        }
    }

    /// Ends the session at a sink, also after half a frame.
    pub(crate) fn finish<O: Sink>(&mut self, alloc: Global, sink: &mut O) -> Result<(), Trouble>
        ensures shut { self.new.phase ≡ Shut }
        ensures same { self.new.sent ≡ self.old.sent }
        ensures cutter { self.new.cutter ≡ self.old.cutter }
        ensures cause { HasCause self.old.failures self.new.failures result }
        ensures wrote { OnOk result (Appends (O.written sink.old) (O.written sink.new) (frame Bye)) }
        ensures prefix { AppendsPrefix (O.written sink.old) (O.written sink.new) (frame Bye) }
        ensures sink { HasCause (O.faults sink.old) (O.faults sink.new) result }
    {
        self.phase = Phase::Shut;
        if let Err(trouble) = write_bye(alloc, sink) {
            return Err(self.fail(trouble));
        }
        Ok(())
    }
}

/// A count after a trouble: one more for a failure, or its last value.
fn counted(count: u64, trouble: Trouble) -> u64
    ensures count { result ≡ counted count trouble }
    ensures later { count ≤ result }
{
    match trouble {
        Trouble::Failed => count.saturating_add(1),
        Trouble::Memory => count,
    }
}

/// Adds a job to those sent.
fn record_job(sent: &mut Many<Sent>, lease: u64, job: &Arc<Job>) -> Result<(), Trouble>
    ensures ok { OnOk result (sent.new ≡ sent.old ++ (lease, arc_value job.now) ∷ []) }
    ensures err { IfErr result (λ trouble. (trouble ≡ Trouble.Memory) × (sent.new ≡ sent.old)) }
{
    let job = Arc::try_clone(job)?;
    sent.push(Sent { lease, job })?;
    Ok(())
}

/// Writes the frame of a job.
fn write_start<O: Sink>(alloc: Global, sink: &mut O, lease: u64, job: &Job) -> Result<(), Trouble>
    requires { IsJob job.now }
    ensures wrote { OnOk result (Appends (O.written sink.old) (O.written sink.new) (frame (Start lease job.now))) }
    ensures prefix { AppendsPrefix (O.written sink.old) (O.written sink.new) (frame (Start lease job.now)) }
    ensures cause { HasCause (O.faults sink.old) (O.faults sink.new) result }
{
    let bytes = encode_start(alloc, lease, job)?;
    write_all(sink, bytes.as_slice())
}

/// Writes the frame that ends a session.
fn write_bye<O: Sink>(alloc: Global, sink: &mut O) -> Result<(), Trouble>
    ensures wrote { OnOk result (Appends (O.written sink.old) (O.written sink.new) (frame Bye)) }
    ensures prefix { AppendsPrefix (O.written sink.old) (O.written sink.new) (frame Bye) }
    ensures cause { HasCause (O.faults sink.old) (O.faults sink.new) result }
{
    let bytes = encode_frame(alloc, &Message::Bye)?;
    write_all(sink, bytes.as_slice())
}
