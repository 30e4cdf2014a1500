//! The tracker of thunks.

ghost use Rattle.std.specs.Prelude.{◌≡◌, ◌≢◌, ◌+◌, ◌≤◌, ◌<◌, ◌++◌, ◌∷◌, [], true, false, length, IfOk, OnOk};
ghost use Rattle.indexmap.specs.IndexSet.{spare};
ghost use Rattle.dep_tracker.specs.declared.tracker.TrackFault.TheVariants.{Memory};
ghost use Rattle.dep_tracker.specs.Known.{begun, has_name};
ghost use Rattle.dep_tracker.specs.Listing.{AreListed};
ghost use Rattle.dep_tracker.specs.Tracked.{Lists, without};

use crate::graph::Graph;
use crate::listing::{list_new, put_name, take_name, take_off};
use crate::readying::list_ready;
use crate::walk::walk;
use indexmap::IndexSet;
use object_name::{Many, Name};
use std::alloc::{AllocError, AllocFailed, Global};
use std::marker::Model;
use std::mem::replace;
use thunk_codec::{Ref, Thunk};

/// The most thunks that are added.
pub const MAX_NODES: usize = 262_144;

/// Which thunks are in reach of what is wanted, and which of these can be run ahead. It holds of each tracker that `unknown`
/// and `ready` are what is in reach, whatever calls there were.
#[derive(Drop)]
pub struct Tracker {
    graph: Graph,
    barred: IndexSet<Name>,
    unknown: IndexSet<Name>,
    ready: Vec<Name>,
}

impl Model for Tracker {
    ghost use Rattle.std.specs.Prelude.{◌+◌, ◌≤◌, length};
    ghost use Rattle.indexmap.specs.IndexSet.{spare};
    ghost use Rattle.dep_tracker.specs.Tracked.{Tracked, IsTracked};

    ghost Value = { Tracked };

    ghost view = { λ t. record { known = t.graph; barred = t.barred.keys; unknown = t.unknown.keys; ready = t.ready.items } };

    // There is room to bar all that may be barred.
    ghost invariant = { λ t. IsTracked (record { known = t.graph; barred = t.barred.keys; unknown = t.unknown.keys; ready = t.ready.items })
        × (length t.unknown.keys + length t.ready.items ≤ spare t.barred) };
}

/// Why a thunk isn't added.
#[derive(Clone, Copy, Debug, PartialEq, Eq)]
pub enum TrackFault {
    /// As many were added as may be.
    Full,
    /// Memory was refused.
    Memory,
}

impl From<AllocError> for TrackFault {
    ghost from_gives = { λ _ e. e ≡ Memory };

    fn from(_: AllocError) -> Self {
        TrackFault::Memory
    }
}

/// A tracker by what is known and barred, where these unknown thunks are listed.
fn track(
    alloc: Global,
    graph: Graph,
    mut barred: IndexSet<Name>,
    mut unknown: IndexSet<Name>,
) -> Result<Tracker, AllocError>
    requires { AreListed graph barred.keys unknown.keys }
    ensures { IfOk result (λ t. Lists graph barred.keys unknown.keys t) }
{
    let reach = walk(alloc, &graph)?;
    list_new(&graph, &barred, &reach, &mut unknown)?;
    let ready = list_ready(alloc, &graph, &barred)?;
    barred.reserve(unknown.len() + ready.len())?;
    Ok(Tracker {
        graph,
        barred,
        unknown,
        ready,
    })
}

impl Tracker {
    ghost use Rattle.std.specs.Prelude.{◌≡◌, ◌≢◌, ◌↔◌, ◌≤◌, ◌++◌, ◌∷◌, ◌||◌, [], true, length, IfOk, OnOk, OnErr, Ok, Err};
    ghost use Rattle.dep_tracker.specs.declared.tracker.TrackFault.TheVariants.{Full, Memory};
    ghost use Rattle.dep_tracker.specs.Known.{has_name, begun};
    ghost use Rattle.dep_tracker.specs.Tracked.{Add, Absorb, Bar, Begins, Follows, AreUnknown, AreReady, nothing, without};

    /// A tracker of what is wanted.
    pub fn new(alloc: Global, roots: Many<Ref>) -> Result<Tracker, AllocError>
        ensures { IfOk result (λ t. Begins roots t) }
    {
        let graph = Graph::new(alloc, roots);
        track(alloc, graph, IndexSet::new(alloc), IndexSet::new(alloc))
    }

    /// A tracker of nothing.
    fn empty(alloc: Global) -> Tracker
        ensures { result ≡ nothing }
    {
        Tracker {
            graph: Graph::new(alloc, Many::new(alloc)),
            barred: IndexSet::new(alloc),
            unknown: IndexSet::new(alloc),
            ready: Vec::new(alloc),
        }
    }

    /// The thunks in reach that were neither added nor barred, in order of meeting.
    pub fn unknown(&self) -> &[Name]
        ensures listed { result.now ≡ self.now.unknown }
        ensures exact { AreUnknown self.now.known self.now.barred result.now }
    {
        self.unknown.as_slice()
    }

    /// The added thunks in reach whose references all have values and that were neither absorbed nor barred, in order of adding.
    pub fn ready(&self) -> &[Name]
        ensures listed { result.now ≡ self.now.ready }
        ensures exact { AreReady self.now.known self.now.barred result.now }
    {
        self.ready.as_slice()
    }

    /// Adds a thunk that is unknown. Where as many were added as may be nothing changes; after want of memory nothing is tracked.
    pub fn add(&mut self, alloc: Global, name: Name, thunk: Thunk) -> Result<(), TrackFault>
        requires { has_name self.old.unknown name ≡ true }
        ensures ok { OnOk result (Follows self.old (Add name thunk) self.new) }
        ensures full { (result ≡ Err Full) ↔ (262144 ≤ length self.old.known.added) }
        ensures kept { result ≡ Err Full → self.new ≡ self.old }
        ensures lost { result ≡ Err Memory → self.new ≡ nothing }
    {
        if self.graph.len() >= MAX_NODES {
            return Err(TrackFault::Full);
        }
        let old = replace(self, Tracker::empty(alloc));
        *self = old.with_added(alloc, name, thunk)?;
        Ok(())
    }

    /// The same, with one thunk more.
    fn with_added(self, alloc: Global, name: Name, thunk: Thunk) -> Result<Tracker, AllocError>
        requires { has_name self.unknown name ≡ true }
        ensures { IfOk result (λ t. Follows self (Add name thunk) t) }
    {
        let Tracker {
            mut graph,
            barred,
            mut unknown,
            ..
        } = self;
        graph.add(name, thunk)?;
        take_name(&mut unknown, &name);
        track(alloc, graph, barred, unknown)
    }

    /// Takes the outputs of a thunk that is ready. After want of memory nothing is tracked.
    pub fn absorb(
        &mut self,
        alloc: Global,
        name: Name,
        outputs: Many<Name>,
    ) -> Result<(), AllocError>
        requires { has_name self.old.ready name ≡ true }
        ensures ok { OnOk result (Follows self.old (Absorb name outputs) self.new) }
        ensures lost { OnErr result (self.new ≡ nothing) }
    {
        let old = replace(self, Tracker::empty(alloc));
        *self = old.with_absorbed(alloc, name, outputs)?;
        Ok(())
    }

    /// The same, with the outputs of one thunk more.
    fn with_absorbed(
        self,
        alloc: Global,
        name: Name,
        outputs: Many<Name>,
    ) -> Result<Tracker, AllocError>
        requires { has_name self.ready name ≡ true }
        ensures { IfOk result (λ t. Follows self (Absorb name outputs) t) }
    {
        let Tracker {
            mut graph,
            barred,
            unknown,
            ..
        } = self;
        graph.absorb(name, outputs)?;
        track(alloc, graph, barred, unknown)
    }

    /// Says that a thunk that is unknown or ready can't be run ahead. This brings nothing new into reach, and takes no memory.
    pub fn bar(&mut self, name: Name)
        requires { (has_name self.old.unknown name || has_name self.old.ready name) ≡ true }
        ensures barred { self.new ≡ record self.old { barred = self.old.barred ++ name ∷ []; unknown = without self.old.unknown name; ready = without self.old.ready name } }
        ensures follows { Follows self.old (Bar name) self.new }
    {
        put_name(&mut self.barred, name);
        take_name(&mut self.unknown, &name);
        take_off(&mut self.ready, &name);
    }
}
