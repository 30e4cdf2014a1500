//! Links to workers.

ghost use Rattle.std.specs.Prelude.{◌≡◌, ◌++◌, ◌∷◌, [], ℕ, List, IfOk, OnOk, OnErr};
ghost use Rattle.std.specs.Arc.{arc_value};
ghost use Rattle.object_name.specs.Causes.{HasCause};
ghost use Rattle.thunk_codec.specs.declared.job.Job.{Job};
ghost use Rattle.job_wire.specs.Frame.{IsJob};
ghost use Rattle.worker_link.specs.declared.phase.Phase.{Phase};
ghost use Rattle.worker_link.specs.declared.phase.Phase.TheVariants.{Shut, Idle, Waiting};
ghost use Rattle.worker_link.specs.Link.{IsReply, MaySend, after_reply};

use crate::sent::Sent;
use object_name::Trouble;
use std::alloc::Global;
use std::sync::Arc;
use thunk_codec::{Function, Job, Outcome};

/// A way to a worker: jobs are sent over it under numbers of leases, and replies come back.
/// Whoever sent a job receives until the reply on its lease comes or a call fails.
pub trait Link: Function {
    /// The jobs sent so far, with their leases, in the order of sending.
    ghost jobs: { Self → List (ℕ × Job) };

    /// What may come next.
    ghost phase: { Self → Phase };

    /// How often a call has failed.
    ghost faults: { Self → ℕ };

    /// Begins anew, whatever came before.
    fn reopen(&mut self, alloc: Global) -> Result<(), Trouble>
        ensures idle { OnOk result (phase self.new ≡ Idle) }
        ensures shut { OnErr result (phase self.new ≡ Shut) }
        ensures same { jobs self.new ≡ jobs self.old }
        ensures cause { HasCause (faults self.old) (faults self.new) result };

    /// Sends a job under a lease.
    fn send(&mut self, alloc: Global, lease: u64, job: &Arc<Job>) -> Result<(), Trouble>
        requires idle { phase self.old ≡ Idle }
        requires job { IsJob (arc_value job.now) }
        ensures sent { OnOk result (jobs self.new ≡ jobs self.old ++ (lease, arc_value job.now) ∷ []) }
        ensures waiting { OnOk result (phase self.new ≡ Waiting) }
        ensures may { OnErr result (MaySend (jobs self.old) (lease, arc_value job.now) (jobs self.new)) }
        ensures shut { OnErr result (phase self.new ≡ Shut) }
        ensures cause { HasCause (faults self.old) (faults self.new) result };

    /// Gives the next reply, with its lease.
    fn receive(&mut self, alloc: Global) -> Result<(u64, Outcome), Trouble>
        requires waiting { phase self.old ≡ Waiting }
        ensures reply { IfOk result (λ r. IsReply Self.tells Self.outcome (jobs self.old) r.0 r.1) }
        ensures phase { IfOk result (λ r. phase self.new ≡ after_reply (jobs self.old) r.0) }
        ensures shut { OnErr result (phase self.new ≡ Shut) }
        ensures same { jobs self.new ≡ jobs self.old }
        ensures cause { HasCause (faults self.old) (faults self.new) result };

    /// Says that no more will be sent.
    fn finish(&mut self, alloc: Global) -> Result<(), Trouble>
        ensures shut { phase self.new ≡ Shut }
        ensures same { jobs self.new ≡ jobs self.old }
        ensures cause { HasCause (faults self.old) (faults self.new) result };

    /// The jobs sent so far.
    fn sent(&self) -> &[Sent]
        ensures { result.now ≡ jobs self.now };
}
