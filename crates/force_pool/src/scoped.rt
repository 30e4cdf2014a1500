//! The scope of the workers' threads.

ghost use Rattle.std.specs.Prelude.{◌≡◌};
ghost use Rattle.force_pool.specs.Sums.{Fits, HasParts};
ghost use Rattle.force_pool.specs.Walks.{IsEvaluation, as_walked};

use crate::hall::Hall;
use crate::halt::Halt;
use crate::lease::stop;
use crate::limits::Limits;
use crate::ready::{Ready, start_all};
use crate::tally::{Tally, collect};
use crate::walk::walk;
use blob_store::Keeper;
use need_eval::Values;
use object_name::Many;
use std::alloc::Global;
use std::marker::Model;
use std::sync::Wait;
use std::sync::ledger::Ledger;
use std::thread;
use std::thread::{Scope, Threads};
use thunk_codec::Ref;
use worker_link::Link;

/// References that are wanted. Their type keeps that they are references.
#[derive(Drop)]
pub(crate) struct Wanted {
    refs: Many<Ref>,
}

impl Model for Wanted {
    ghost use Rattle.std.specs.Prelude.{List};
    ghost use Rattle.std.specs.List.{AllByRecursion};
    ghost use Rattle.thunk_codec.specs.declared.reference.Ref.{Ref};
    ghost use Rattle.thunk_codec.specs.Reference.{IsRef};

    ghost Value = { List Ref };

    ghost view = { λ w. w.refs };

    ghost invariant = { λ w. AllByRecursion IsRef w.refs };
}

impl Wanted {
    ghost use Rattle.std.specs.Prelude.{◌≡◌};
    ghost use Rattle.std.specs.List.{AllByRecursion};
    ghost use Rattle.thunk_codec.specs.Reference.{IsRef};

    pub(crate) fn new(refs: Many<Ref>) -> Wanted
        requires { AllByRecursion IsRef refs }
        ensures { result ≡ refs }
    {
        Wanted { refs }
    }
}

/// What the caller does while its workers run: it walks, ends all work, and waits for them.
fn within<'s, 'k, E, R, K, L, S, P, O>(
    scope: &Scope<'s, E>,
    rt: &'s R,
    alloc: Global,
    keeper: &'k mut K,
    wanted: Wanted,
    budget: u32,
    retries: u32,
    hall: &'s Hall<L, S, P, O>,
    ready: Ready<L, S, P, O>,
) -> (Result<Values, Halt>, Tally<L, S, P, O>, &'k mut K)
where
    R: Threads + Wait + Sync,
    K: Keeper,
    L: Link + Drop + Send + 's,
    S: Limits + Send + Sync + 's,
    P: Ledger + Send + Sync + 's,
    O: Ledger + Send + Sync + 's,
    ensures evaluates { IsEvaluation K.tells K.store K.writes K.faults L.tells L.outcome budget retries wanted keeper.old result.2.now (as_walked result.0) }
    ensures same { result.2.ghost_name ≡ keeper.entry.ghost_name }
    ensures fits { Fits L.tells S.retries ready.marks result.1 }
    ensures parts { result.1.parts ≡ ready.parts }
{
    let (mut slots, tally) = start_all(scope, rt, alloc, hall, ready);
    let Wanted { refs } = wanted;
    let walked = walk(rt, alloc, keeper, refs, budget, retries, hall, &mut slots);
    stop(rt, hall);
    let tally = collect(rt, alloc, slots, tally);
    (walked, tally, keeper)
}

/// Runs the workers in a scope, and walks. The keeper comes back through the scope.
fn in_scope<'k, R, K, L, S, P, O>(
    rt: &R,
    alloc: Global,
    keeper: &'k mut K,
    wanted: Wanted,
    budget: u32,
    retries: u32,
    hall: &Hall<L, S, P, O>,
    ready: Ready<L, S, P, O>,
) -> (Result<Values, Halt>, Tally<L, S, P, O>, &'k mut K)
where
    R: Threads + Wait + Sync,
    K: Keeper,
    L: Link + Drop + Send,
    S: Limits + Send + Sync,
    P: Ledger + Send + Sync,
    O: Ledger + Send + Sync,
    ensures evaluates { IsEvaluation K.tells K.store K.writes K.faults L.tells L.outcome budget retries wanted keeper.old result.2.now (as_walked result.0) }
    ensures same { result.2.ghost_name ≡ keeper.entry.ghost_name }
    ensures fits { Fits L.tells S.retries ready.marks result.1 }
    ensures parts { result.1.parts ≡ ready.parts }
{
    thread::scope(
        thread::scope_env(),
        rt,
        move |scope| -> (Result<Values, Halt>, Tally<L, S, P, O>, &mut K)
            ensures evaluates { IsEvaluation K.tells K.store K.writes K.faults L.tells L.outcome budget retries wanted keeper.entry.now result.2.now (as_walked result.0) }
            ensures same { result.2.ghost_name ≡ keeper.entry.ghost_name }
            ensures fits { Fits L.tells S.retries ready.marks result.1 }
            ensures parts { result.1.parts ≡ ready.parts }
        {
            within(
                scope, rt, alloc, keeper, wanted, budget, retries, hall, ready,
            )
        },
    )
}

/// Runs the workers, and walks: the end of the walk, and what came of the workers.
pub(crate) fn walked_with_workers<R, K, L, S, P, O>(
    rt: &R,
    alloc: Global,
    keeper: &mut K,
    wanted: Wanted,
    budget: u32,
    retries: u32,
    hall: &Hall<L, S, P, O>,
    ready: Ready<L, S, P, O>,
) -> (Result<Values, Halt>, Tally<L, S, P, O>)
where
    R: Threads + Wait + Sync,
    K: Keeper,
    L: Link + Drop + Send,
    S: Limits + Send + Sync,
    P: Ledger + Send + Sync,
    O: Ledger + Send + Sync,
    ensures evaluates { IsEvaluation K.tells K.store K.writes K.faults L.tells L.outcome budget retries wanted keeper.old keeper.new (as_walked result.0) }
    ensures fits { Fits L.tells S.retries ready.marks result.1 }
    ensures parts { result.1.parts ≡ ready.parts }
{
    let (walked, tally, _keeper) = in_scope(
        rt, alloc, keeper, wanted, budget, retries, hall, ready,
    );
    (walked, tally)
}
