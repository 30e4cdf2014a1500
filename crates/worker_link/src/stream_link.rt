//! A link over a source and a sink.

ghost use Rattle.std.specs.Prelude.{◌≡◌, ◌++◌, ◌∷◌, [], IsOk, IfOk, OnOk, OnErr};
ghost use Rattle.std.specs.Arc.{arc_value};
ghost use Rattle.object_name.specs.Causes.{HasCause};
ghost use Rattle.job_wire.specs.declared.message.Message.TheVariants.{Start, Bye};
ghost use Rattle.job_wire.specs.Frame.{IsJob, frame};
ghost use Rattle.worker_link.specs.declared.phase.Phase.TheVariants.{Shut, Idle, Waiting};
ghost use Rattle.worker_link.specs.Link.{IsReply, MaySend, after_reply};
ghost use Rattle.worker_link.specs.Stream.{none_told, some_outcome, some_fits, uncut, Begins, Writes, Takes};

use crate::exchange::Exchange;
use crate::framed::Frames;
use crate::link::Link;
use crate::sent::Sent;
use object_name::{Sink, Source, Trouble};
use std::alloc::Global;
use std::sync::Arc;
use thunk_codec::{Function, Job, Outcome};

/// A link over a source and a sink of frames. It tells nothing of outcomes, since who is at the other end isn't known.
#[derive(Drop)]
pub struct StreamLink<S, O> {
    source: S,
    sink: O,
    exchange: Exchange,
}

impl<S: Source, O: Sink> StreamLink<S, O> {
    /// A link that is shut, over which nothing was sent.
    pub fn new(alloc: Global, source: S, sink: O) -> Self
        ensures jobs { ⟦<StreamLink<S, O> as Link>⟧.jobs result ≡ [] }
        ensures phase { ⟦<StreamLink<S, O> as Link>⟧.phase result ≡ Shut }
        ensures faults { ⟦<StreamLink<S, O> as Link>⟧.faults result ≡ 0 }
        ensures framed { ⟦<StreamLink<S, O> as Frames>⟧.framed result ≡ record { cutting = uncut; left = S.left source; written = O.written sink; reads = S.faults source; writes = O.faults sink } }
    {
        StreamLink {
            source,
            sink,
            exchange: Exchange::new(alloc),
        }
    }

    /// How often a call has failed. The count stands still at its last value.
    pub fn failures(&self) -> u64
        ensures { result ≡ ⟦<StreamLink<S, O> as Link>⟧.faults self.now }
    {
        self.exchange.failures
    }

    /// The source and the sink. Bytes that were read and not taken as frames are let go.
    pub fn into_ends(self) -> (S, O)
        ensures written { O.written result.1 ≡ (⟦<StreamLink<S, O> as Frames>⟧.framed self).written }
        ensures reads { S.faults result.0 ≡ (⟦<StreamLink<S, O> as Frames>⟧.framed self).reads }
        ensures writes { O.faults result.1 ≡ (⟦<StreamLink<S, O> as Frames>⟧.framed self).writes }
    {
        let StreamLink {
            source,
            sink,
            exchange: _,
        } = self;
        (source, sink)
    }
}

impl<S: Source, O: Sink> Function for StreamLink<S, O> {
    ghost outcome = { some_outcome };

    ghost tells = { none_told };

    ghost fits = { some_fits };
}

impl<S: Source, O: Sink> Frames for StreamLink<S, O> {
    ghost framed = { λ l. record { cutting = l.exchange.cutter; left = S.left l.source; written = O.written l.sink; reads = S.faults l.source; writes = O.faults l.sink } };
}

impl<S: Source, O: Sink> Link for StreamLink<S, O> {
    ghost jobs = { λ l. l.exchange.sent };

    ghost phase = { λ l. l.exchange.phase };

    ghost faults = { λ l. l.exchange.failures };

    fn reopen(&mut self, alloc: Global) -> Result<(), Trouble>
        ensures ok { IsOk result }
        ensures idle { ⟦<StreamLink<S, O> as Link>⟧.phase self.new ≡ Idle }
        ensures same { ⟦<StreamLink<S, O> as Link>⟧.jobs self.new ≡ ⟦<StreamLink<S, O> as Link>⟧.jobs self.old }
        ensures begins { Begins (⟦<StreamLink<S, O> as Frames>⟧.framed self.old) (⟦<StreamLink<S, O> as Frames>⟧.framed self.new) }
        ensures cause { HasCause (⟦<StreamLink<S, O> as Link>⟧.faults self.old) (⟦<StreamLink<S, O> as Link>⟧.faults self.new) result }
    {
        self.exchange.begin(alloc);
        Ok(())
    }

    fn send(&mut self, alloc: Global, lease: u64, job: &Arc<Job>) -> Result<(), Trouble>
        requires idle { ⟦<StreamLink<S, O> as Link>⟧.phase self.old ≡ Idle }
        requires job { IsJob (arc_value job.now) }
        ensures sent { OnOk result (⟦<StreamLink<S, O> as Link>⟧.jobs self.new ≡ ⟦<StreamLink<S, O> as Link>⟧.jobs self.old ++ (lease, arc_value job.now) ∷ []) }
        ensures waiting { OnOk result (⟦<StreamLink<S, O> as Link>⟧.phase self.new ≡ Waiting) }
        ensures may { OnErr result (MaySend (⟦<StreamLink<S, O> as Link>⟧.jobs self.old) (lease, arc_value job.now) (⟦<StreamLink<S, O> as Link>⟧.jobs self.new)) }
        ensures shut { OnErr result (⟦<StreamLink<S, O> as Link>⟧.phase self.new ≡ Shut) }
        ensures writes { Writes (frame (Start lease (arc_value job.now))) (⟦<StreamLink<S, O> as Frames>⟧.framed self.old) (⟦<StreamLink<S, O> as Frames>⟧.framed self.new) result }
        ensures cause { HasCause (⟦<StreamLink<S, O> as Link>⟧.faults self.old) (⟦<StreamLink<S, O> as Link>⟧.faults self.new) result }
    {
        self.exchange.send(alloc, &mut self.sink, lease, job)
    }

    fn receive(&mut self, alloc: Global) -> Result<(u64, Outcome), Trouble>
        requires waiting { ⟦<StreamLink<S, O> as Link>⟧.phase self.old ≡ Waiting }
        ensures reply { IfOk result (λ r. IsReply none_told some_outcome (⟦<StreamLink<S, O> as Link>⟧.jobs self.old) r.0 r.1) }
        ensures phase { IfOk result (λ r. ⟦<StreamLink<S, O> as Link>⟧.phase self.new ≡ after_reply (⟦<StreamLink<S, O> as Link>⟧.jobs self.old) r.0) }
        ensures shut { OnErr result (⟦<StreamLink<S, O> as Link>⟧.phase self.new ≡ Shut) }
        ensures same { ⟦<StreamLink<S, O> as Link>⟧.jobs self.new ≡ ⟦<StreamLink<S, O> as Link>⟧.jobs self.old }
        ensures takes { Takes (⟦<StreamLink<S, O> as Link>⟧.jobs self.old) (⟦<StreamLink<S, O> as Frames>⟧.framed self.old) (⟦<StreamLink<S, O> as Frames>⟧.framed self.new) result }
        ensures cause { HasCause (⟦<StreamLink<S, O> as Link>⟧.faults self.old) (⟦<StreamLink<S, O> as Link>⟧.faults self.new) result }
    {
        self.exchange.receive(alloc, &mut self.source)
    }

    fn finish(&mut self, alloc: Global) -> Result<(), Trouble>
        ensures shut { ⟦<StreamLink<S, O> as Link>⟧.phase self.new ≡ Shut }
        ensures same { ⟦<StreamLink<S, O> as Link>⟧.jobs self.new ≡ ⟦<StreamLink<S, O> as Link>⟧.jobs self.old }
        ensures writes { Writes (frame Bye) (⟦<StreamLink<S, O> as Frames>⟧.framed self.old) (⟦<StreamLink<S, O> as Frames>⟧.framed self.new) result }
        ensures cause { HasCause (⟦<StreamLink<S, O> as Link>⟧.faults self.old) (⟦<StreamLink<S, O> as Link>⟧.faults self.new) result }
    {
        self.exchange.finish(alloc, &mut self.sink)
    }

    fn sent(&self) -> &[Sent] {
        self.exchange.sent.as_slice()
    }
}
