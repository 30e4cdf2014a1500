//! Links with a gate before each reply.

ghost use Rattle.std.specs.Prelude.{◌≡◌, ◌++◌, ◌∷◌, [], IfOk, OnOk, OnErr};
ghost use Rattle.std.specs.Arc.{arc_value};
ghost use Rattle.object_name.specs.Causes.{HasCause};

use object_name::Trouble;
use std::alloc::Global;
use std::sync::Arc;
use thunk_codec::{Function, Job, Outcome};
use worker_link::{Link, Sent};

/// What is entered before a reply is received.
pub trait Gate {
    /// Passes the gate. The lease is the one that was sent last.
    fn enter(&self, lease: u64);
}

/// A link with a gate: in all else it is the link inside.
#[derive(Drop)]
pub struct GateLink<L, G> {
    link: L,
    gate: G,
}

impl<L: Link, G: Gate> GateLink<L, G> {
    /// A link behind a gate.
    pub fn new(link: L, gate: G) -> Self
        ensures jobs { ⟦<GateLink<L, G> as Link>⟧.jobs result ≡ L.jobs link }
        ensures phase { ⟦<GateLink<L, G> as Link>⟧.phase result ≡ L.phase link }
        ensures faults { ⟦<GateLink<L, G> as Link>⟧.faults result ≡ L.faults link }
    {
        GateLink { link, gate }
    }
}

impl<L: Link, G: Gate> Function for GateLink<L, G> {
    ghost outcome = { L.outcome };

    ghost tells = { L.tells };

    ghost fits = { L.Function.fits };
}

impl<L: Link, G: Gate> Link for GateLink<L, G> {
    ghost jobs = { λ l. L.jobs l.link };

    ghost phase = { λ l. L.phase l.link };

    ghost faults = { λ l. L.faults l.link };

    fn reopen(&mut self, alloc: Global) -> Result<(), Trouble> {
        self.link.reopen(alloc)
    }

    fn send(&mut self, alloc: Global, lease: u64, job: &Arc<Job>) -> Result<(), Trouble> {
        self.link.send(alloc, lease, job)
    }

    fn receive(&mut self, alloc: Global) -> Result<(u64, Outcome), Trouble> {
        if let Some(last) = self.link.sent().last() {
            self.gate.enter(last.lease());
        }
        self.link.receive(alloc)
    }

    fn finish(&mut self, alloc: Global) -> Result<(), Trouble> {
        self.link.finish(alloc)
    }

    fn sent(&self) -> &[Sent] {
        self.link.sent()
    }
}
