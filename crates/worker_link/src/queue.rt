//! Jobs that were sent and are run one after another.

ghost use Rattle.std.specs.Prelude.{◌≡◌, ◌++◌, ◌∷◌, ◌+◌, [], ℕ, Some, OnOk, OnErr, slice_get, if◌then◌else◌};
ghost use Rattle.std.specs.Arc.{arc_value};
ghost use Rattle.thunk_codec.specs.declared.job.Job.{Job};
ghost use Rattle.worker_link.specs.declared.phase.Phase.TheVariants.{Shut, Idle, Waiting};
ghost use Rattle.worker_link.specs.Link.{after_reply};

use crate::phase::Phase;
use crate::sent::{Sent, is_latest};
use object_name::Many;
use std::alloc::{AllocError, Global};
use std::marker::Model;
use std::sync::Arc;
use thunk_codec::Job;

/// The jobs that a link was sent, of which the first ones were run.
#[derive(Drop)]
pub(crate) struct Queue {
    sent: Many<Sent>,
    ran: usize,
    phase: Phase,
}

impl Model for Queue {
    ghost use Rattle.worker_link.specs.Queue.{Queued, IsQueue};

    ghost Value = { Queued };

    ghost view = { λ q. record { sent = q.sent; ran = q.ran; phase = q.phase } };

    ghost invariant = { λ q. IsQueue (record { sent = q.sent; ran = q.ran; phase = q.phase }) };
}

impl Queue {
    /// Nothing was sent.
    pub(crate) fn new(alloc: Global) -> Self
        ensures { result ≡ record { sent = []; ran = 0; phase = Shut } }
    {
        Queue {
            sent: Many::new(alloc),
            ran: 0,
            phase: Phase::Shut,
        }
    }

    /// The jobs sent so far.
    pub(crate) fn sent(&self) -> &[Sent]
        ensures { result.now ≡ self.now.sent }
    {
        self.sent.as_slice()
    }

    /// A job may be sent.
    pub(crate) fn open(&mut self)
        ensures { self.new ≡ record { sent = self.old.sent; ran = self.old.ran; phase = Idle } }
    {
        self.phase = Phase::Idle;
    }

    /// Nothing may be sent.
    pub(crate) fn shut(&mut self)
        ensures { self.new ≡ record { sent = self.old.sent; ran = self.old.ran; phase = Shut } }
    {
        self.phase = Phase::Shut;
    }

    /// Adds a job.
    pub(crate) fn push(&mut self, lease: u64, job: &Arc<Job>) -> Result<(), AllocError>
        ensures ok { OnOk result (self.new ≡ record { sent = self.old.sent ++ (lease, arc_value job.now) ∷ []; ran = self.old.ran; phase = Waiting }) }
        ensures err { OnErr result (self.new ≡ record { sent = self.old.sent; ran = self.old.ran; phase = Shut }) }
    {
        self.phase = Phase::Shut;
        let job = Arc::try_clone(job)?;
        self.sent.push(Sent { lease, job })?;
        self.phase = Phase::Waiting;
        Ok(())
    }

    /// The first job that wasn't run.
    pub(crate) fn next(&self) -> &Sent
        requires { self.now.phase ≡ Waiting }
        ensures { slice_get self.now.sent self.now.ran ≡ Some result.now }
    {
        &self.sent.0[self.ran]
    }

    /// It was run, and its reply is given.
    pub(crate) fn replied(&mut self)
        requires { self.old.phase ≡ Waiting }
        ensures jobs { self.new.sent ≡ self.old.sent }
        ensures ran { self.new.ran ≡ self.old.ran + 1 }
        ensures phase { (job : ℕ × Job) → slice_get self.old.sent self.old.ran ≡ Some job → self.new.phase ≡ after_reply self.old.sent job.0 }
    {
        let lease = self.next().lease();
        let latest = is_latest(self.sent.as_slice(), lease);
        self.ran += 1;
        self.phase = phase_after(latest);
    }

    /// A reply on a job that was run before is given.
    pub(crate) fn again(&mut self, lease: u64)
        requires { self.old.phase ≡ Waiting }
        ensures { self.new ≡ record { sent = self.old.sent; ran = self.old.ran; phase = after_reply self.old.sent lease } }
    {
        let latest = is_latest(self.sent.as_slice(), lease);
        self.phase = phase_after(latest);
    }

    /// It was run, and no reply is given.
    pub(crate) fn failed(&mut self)
        requires { self.old.phase ≡ Waiting }
        ensures { self.new ≡ record { sent = self.old.sent; ran = self.old.ran + 1; phase = Shut } }
    {
        let _sent = self.sent.len();
        self.ran += 1;
        self.phase = Phase::Shut;
    }
}

/// The phase after a reply, by whether it was on the lease sent last.
pub(crate) fn phase_after(latest: bool) -> Phase
    ensures { result ≡ (if latest then Idle else Waiting) }
{
    if latest { Phase::Idle } else { Phase::Waiting }
}
