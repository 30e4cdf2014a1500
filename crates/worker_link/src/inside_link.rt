//! A link to a worker in the same place.

ghost use Rattle.std.specs.Prelude.{◌≡◌, ◌++◌, ◌∷◌, ◌+◌, [], IsOk, IfOk, IfErr, OnOk, OnErr};
ghost use Rattle.std.specs.Arc.{arc_value};
ghost use Rattle.object_name.specs.Causes.{HasCause};
ghost use Rattle.job_wire.specs.Frame.{IsJob};
ghost use Rattle.worker_link.specs.declared.phase.Phase.TheVariants.{Shut, Idle, Waiting};
ghost use Rattle.worker_link.specs.Link.{IsReplyAt, after_reply};

use crate::link::Link;
use crate::queue::Queue;
use crate::run_order::RunOrder;
use crate::sent::Sent;
use object_name::Trouble;
use std::alloc::Global;
use std::sync::Arc;
use thunk_codec::{Function, Job, Outcome, Runner};

/// A link that runs each job itself, where its reply is received.
#[derive(Drop)]
pub struct InsideLink<R> {
    runner: R,
    queue: Queue,
}

impl<R: Runner> InsideLink<R> {
    /// A link that is shut, over which nothing was sent.
    pub fn new(alloc: Global, runner: R) -> Self
        ensures jobs { ⟦<InsideLink<R> as Link>⟧.jobs result ≡ [] }
        ensures phase { ⟦<InsideLink<R> as Link>⟧.phase result ≡ Shut }
        ensures faults { ⟦<InsideLink<R> as Link>⟧.faults result ≡ R.faults runner }
        ensures ran { ⟦<InsideLink<R> as RunOrder>⟧.ran result ≡ 0 }
    {
        InsideLink {
            runner,
            queue: Queue::new(alloc),
        }
    }
}

impl<R: Runner> Function for InsideLink<R> {
    ghost outcome = { R.outcome };

    ghost tells = { R.tells };

    ghost fits = { R.Function.fits };
}

impl<R: Runner> RunOrder for InsideLink<R> {
    ghost ran = { λ l. l.queue.ran };
}

impl<R: Runner> Link for InsideLink<R> {
    ghost jobs = { λ l. l.queue.sent };

    ghost phase = { λ l. l.queue.phase };

    ghost faults = { λ l. R.faults l.runner };

    fn reopen(&mut self, _alloc: Global) -> Result<(), Trouble>
        ensures ok { IsOk result }
        ensures idle { ⟦<InsideLink<R> as Link>⟧.phase self.new ≡ Idle }
        ensures same { ⟦<InsideLink<R> as Link>⟧.jobs self.new ≡ ⟦<InsideLink<R> as Link>⟧.jobs self.old }
        ensures ran { ⟦<InsideLink<R> as RunOrder>⟧.ran self.new ≡ ⟦<InsideLink<R> as RunOrder>⟧.ran self.old }
        ensures cause { HasCause (⟦<InsideLink<R> as Link>⟧.faults self.old) (⟦<InsideLink<R> as Link>⟧.faults self.new) result }
    {
        self.queue.open();
        Ok(())
    }

    fn send(&mut self, _alloc: Global, lease: u64, job: &Arc<Job>) -> Result<(), Trouble>
        requires idle { ⟦<InsideLink<R> as Link>⟧.phase self.old ≡ Idle }
        requires job { IsJob (arc_value job.now) }
        ensures sent { OnOk result (⟦<InsideLink<R> as Link>⟧.jobs self.new ≡ ⟦<InsideLink<R> as Link>⟧.jobs self.old ++ (lease, arc_value job.now) ∷ []) }
        ensures waiting { OnOk result (⟦<InsideLink<R> as Link>⟧.phase self.new ≡ Waiting) }
        ensures kept { OnErr result (⟦<InsideLink<R> as Link>⟧.jobs self.new ≡ ⟦<InsideLink<R> as Link>⟧.jobs self.old) }
        ensures shut { OnErr result (⟦<InsideLink<R> as Link>⟧.phase self.new ≡ Shut) }
        ensures ran { ⟦<InsideLink<R> as RunOrder>⟧.ran self.new ≡ ⟦<InsideLink<R> as RunOrder>⟧.ran self.old }
        ensures faults { ⟦<InsideLink<R> as Link>⟧.faults self.new ≡ ⟦<InsideLink<R> as Link>⟧.faults self.old }
        ensures memory { IfErr result (λ trouble. trouble ≡ Trouble.Memory) }
    {
        self.queue.push(lease, job)?;
        Ok(())
    }

    fn receive(&mut self, alloc: Global) -> Result<(u64, Outcome), Trouble>
        requires waiting { ⟦<InsideLink<R> as Link>⟧.phase self.old ≡ Waiting }
        ensures reply { IfOk result (λ r. IsReplyAt R.tells R.outcome (⟦<InsideLink<R> as Link>⟧.jobs self.old) (⟦<InsideLink<R> as RunOrder>⟧.ran self.old) r.0 r.1) }
        ensures ran { ⟦<InsideLink<R> as RunOrder>⟧.ran self.new ≡ ⟦<InsideLink<R> as RunOrder>⟧.ran self.old + 1 }
        ensures phase { IfOk result (λ r. ⟦<InsideLink<R> as Link>⟧.phase self.new ≡ after_reply (⟦<InsideLink<R> as Link>⟧.jobs self.old) r.0) }
        ensures shut { OnErr result (⟦<InsideLink<R> as Link>⟧.phase self.new ≡ Shut) }
        ensures same { ⟦<InsideLink<R> as Link>⟧.jobs self.new ≡ ⟦<InsideLink<R> as Link>⟧.jobs self.old }
        ensures cause { HasCause (⟦<InsideLink<R> as Link>⟧.faults self.old) (⟦<InsideLink<R> as Link>⟧.faults self.new) result }
    {
        let next = self.queue.next();
        let lease = next.lease();
        match self.runner.run(alloc, next.job()) {
            Ok(outcome) => {
                self.queue.replied();
                Ok((lease, outcome))
            }
            Err(trouble) => {
                self.queue.failed();
                Err(trouble)
            }
        }
    }

    fn finish(&mut self, _alloc: Global) -> Result<(), Trouble>
        ensures ok { IsOk result }
        ensures shut { ⟦<InsideLink<R> as Link>⟧.phase self.new ≡ Shut }
        ensures same { ⟦<InsideLink<R> as Link>⟧.jobs self.new ≡ ⟦<InsideLink<R> as Link>⟧.jobs self.old }
        ensures ran { ⟦<InsideLink<R> as RunOrder>⟧.ran self.new ≡ ⟦<InsideLink<R> as RunOrder>⟧.ran self.old }
        ensures cause { HasCause (⟦<InsideLink<R> as Link>⟧.faults self.old) (⟦<InsideLink<R> as Link>⟧.faults self.new) result }
    {
        self.queue.shut();
        Ok(())
    }

    fn sent(&self) -> &[Sent] {
        self.queue.sent()
    }
}
