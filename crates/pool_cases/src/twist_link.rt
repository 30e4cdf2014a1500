//! Links on whose calls something else happens.

ghost use Rattle.std.specs.Prelude.{◌≡◌, ◌++◌, ◌∷◌, [], IfOk, OnOk, OnErr};
ghost use Rattle.std.specs.Arc.{arc_value};
ghost use Rattle.object_name.specs.Causes.{HasCause};
ghost use Rattle.thunk_codec.specs.declared.job.Job.{Job};
ghost use Rattle.thunk_codec.specs.Outcome.{Fits};

use object_name::Trouble;
use std::alloc::Global;
use std::sync::Arc;
use thunk_codec::{Function, Job, Outcome};
use worker_link::{Link, Sent};

/// What else happens on the calls of a link.
pub trait Twist {
    /// What happens before a reply is received.
    fn receives(&mut self) {}

    /// What comes in place of the outcome of a reply.
    fn given(&mut self, _lease: u64, outcome: Outcome) -> Outcome
        ensures { (job : Job) → Fits job outcome → Fits job result }
    {
        outcome
    }

    /// What happens once no more will be sent.
    fn finished(&mut self) {}
}

/// A link with a twist. Nothing is told of it; in all else it is the link inside.
#[derive(Drop)]
pub struct TwistLink<L, T> {
    pub link: L,
    pub twist: T,
}

impl<L: Link, T: Twist> Function for TwistLink<L, T> {
    ghost outcome = { L.outcome };

    ghost tells = { λ _. ⊥ };

    ghost fits = { L.Function.fits };
}

impl<L: Link, T: Twist> Link for TwistLink<L, T> {
    ghost jobs = { λ l. L.jobs l.link };

    ghost phase = { λ l. L.phase l.link };

    ghost faults = { λ l. L.faults l.link };

    fn reopen(&mut self, alloc: Global) -> Result<(), Trouble> {
        self.link.reopen(alloc)
    }

    fn send(&mut self, alloc: Global, lease: u64, job: &Arc<Job>) -> Result<(), Trouble> {
        self.link.send(alloc, lease, job)
    }

    fn receive(&mut self, alloc: Global) -> Result<(u64, Outcome), Trouble> {
        self.twist.receives();
        match self.link.receive(alloc) {
            Ok((lease, outcome)) => Ok((lease, self.twist.given(lease, outcome))),
            Err(trouble) => Err(trouble),
        }
    }

    fn finish(&mut self, alloc: Global) -> Result<(), Trouble> {
        self.twist.finished();
        self.link.finish(alloc)
    }

    fn sent(&self) -> &[Sent] {
        self.link.sent()
    }
}
