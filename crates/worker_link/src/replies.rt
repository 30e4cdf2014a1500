//! Jobs that were sent, and a reply that is given later.

ghost use Rattle.std.specs.Prelude.{◌≡◌, ◌++◌, ◌∷◌, ◌+◌, [], Some, None, IfOk, OnErr, OnOk, IfSome, IsNone, MatchOption, slice_get};
ghost use Rattle.std.specs.Arc.{arc_value};
ghost use Rattle.worker_link.specs.declared.phase.Phase.TheVariants.{Shut, Idle, Waiting};
ghost use Rattle.worker_link.specs.Link.{IsReply, IsReplyAt, after_reply};
ghost use Rattle.worker_link.specs.Script.{Acts};

use crate::action::Action;
use crate::queue::Queue;
use crate::sent::Sent;
use object_name::{Trouble, TryCopy};
use std::alloc::{AllocError, Global};
use std::marker::{Model, PhantomData};
use std::sync::Arc;
use thunk_codec::{Function, Job, Outcome};

/// The jobs that a link was sent, and a reply that is to be given later.
#[derive(Drop)]
pub(crate) struct Replies<F: Function> {
    queue: Queue,
    held: Option<(u64, Outcome)>,
    of: PhantomData<F>,
}

impl<F: Function> Model for Replies<F> {
    ghost use Rattle.worker_link.specs.Script.{Replied, IsHeld};

    ghost Value = { Replied };

    ghost view = { λ r. record { queue = r.queue; held = r.held } };

    ghost invariant = { λ r. IsHeld F.tells F.outcome (record { queue = r.queue; held = r.held }) };
}

impl<F: Function> Replies<F> {
    /// Nothing was sent.
    pub(crate) fn new(alloc: Global) -> Self
        ensures { result ≡ record { queue = record { sent = []; ran = 0; phase = Shut }; held = None } }
    {
        Replies {
            queue: Queue::new(alloc),
            held: None,
            of: PhantomData,
        }
    }

    /// The jobs sent so far.
    pub(crate) fn sent(&self) -> &[Sent]
        ensures { result.now ≡ self.now.queue.sent }
    {
        self.queue.sent()
    }

    /// A job may be sent.
    pub(crate) fn open(&mut self)
        ensures { self.new ≡ record { queue = record { sent = self.old.queue.sent; ran = self.old.queue.ran; phase = Idle }; held = self.old.held } }
    {
        self.queue.open();
    }

    /// Nothing may be sent.
    pub(crate) fn shut(&mut self)
        ensures { self.new ≡ record { queue = record { sent = self.old.queue.sent; ran = self.old.queue.ran; phase = Shut }; held = self.old.held } }
    {
        self.queue.shut();
    }

    /// Adds a job.
    pub(crate) fn push(&mut self, lease: u64, job: &Arc<Job>) -> Result<(), AllocError>
        ensures ok { OnOk result (self.new.queue ≡ record { sent = self.old.queue.sent ++ (lease, arc_value job.now) ∷ []; ran = self.old.queue.ran; phase = Waiting }) }
        ensures err { OnErr result (self.new.queue ≡ record { sent = self.old.queue.sent; ran = self.old.queue.ran; phase = Shut }) }
        ensures held { self.new.held ≡ self.old.held }
    {
        self.queue.push(lease, job)
    }

    /// Gives the reply that is held, once.
    pub(crate) fn take(&mut self) -> Option<(u64, Outcome)>
        requires { self.old.queue.phase ≡ Waiting }
        ensures held { result ≡ self.old.held }
        ensures none { self.new.held ≡ None }
        ensures reply { IfSome result (λ r. IsReply F.tells F.outcome self.old.queue.sent r.0 r.1) }
        ensures phase { MatchOption result (self.new.queue.phase ≡ Waiting) (λ r. self.new.queue.phase ≡ after_reply self.old.queue.sent r.0) }
        ensures jobs { self.new.queue.sent ≡ self.old.queue.sent }
        ensures ran { self.new.queue.ran ≡ self.old.queue.ran }
    {
        let held = self.held.take();
        if let Some(reply) = &held {
            self.queue.again(reply.0);
        }
        held
    }

    /// The first job that wasn't run.
    pub(crate) fn next(&self) -> &Sent
        requires { self.now.queue.phase ≡ Waiting }
        ensures { slice_get self.now.queue.sent self.now.queue.ran ≡ Some result.now }
    {
        self.queue.next()
    }

    /// It was run, and gave no reply.
    pub(crate) fn failed(&mut self)
        requires { self.old.queue.phase ≡ Waiting }
        ensures queue { self.new.queue ≡ record { sent = self.old.queue.sent; ran = self.old.queue.ran + 1; phase = Shut } }
        ensures held { self.new.held ≡ self.old.held }
    {
        self.queue.failed();
    }

    /// It was run and gave this reply, on which an action is taken.
    pub(crate) fn act(
        &mut self,
        alloc: Global,
        action: Action,
        reply: (u64, Outcome),
    ) -> Result<(u64, Outcome), Trouble>
        requires waiting { self.old.queue.phase ≡ Waiting }
        requires none { self.old.held ≡ None }
        requires reply { IsReplyAt F.tells F.outcome self.old.queue.sent self.old.queue.ran reply.0 reply.1 }
        ensures acts { Acts action reply result self.new.held }
        ensures jobs { self.new.queue.sent ≡ self.old.queue.sent }
        ensures ran { self.new.queue.ran ≡ self.old.queue.ran + 1 }
        ensures phase { IfOk result (λ r. self.new.queue.phase ≡ after_reply self.old.queue.sent r.0) }
        ensures shut { OnErr result (self.new.queue.phase ≡ Shut) }
    {
        match action {
            Action::Answer => {
                self.queue.replied();
                Ok(reply)
            }
            Action::Lose => {
                self.queue.failed();
                Err(Trouble::Failed)
            }
            Action::Delay => {
                self.queue.failed();
                self.held = Some(reply);
                Err(Trouble::Failed)
            }
            Action::Repeat => match reply.1.copy(alloc) {
                Ok(copy) => {
                    self.queue.replied();
                    self.held = Some((reply.0, copy));
                    Ok(reply)
                }
                Err(_) => {
                    self.queue.failed();
                    Err(Trouble::Memory)
                }
            },
        }
    }
}
