//! Which thunks are ready.

ghost use Rattle.std.specs.Prelude.{◌≡◌, true, IfOk, OnOk, map};
ghost use Rattle.std.specs.List.{AllByRecursion};
ghost use Rattle.dep_tracker.specs.Listing.{PicksMore, Tells};
ghost use Rattle.dep_tracker.specs.Reach.{IsValued, IsThunkInReach};
ghost use Rattle.dep_tracker.specs.Tracked.{IsReady, AreReady, AreAddedInReach};

use crate::graph::Graph;
use crate::listing::has_name;
use crate::valued::is_valued;
use indexmap::IndexSet;
use object_name::Name;
use std::alloc::{AllocError, Global};
use thunk_codec::{Path, Ref, Thunk};

/// Whether all inputs have values.
fn are_valued(alloc: Global, graph: &Graph, inputs: &[(Path, Ref)]) -> Result<bool, AllocError>
    ensures { IfOk result (λ valued. Tells (AllByRecursion (IsValued graph.now.absorbed) (map (λ input. input.1) inputs.now)) valued) }
{
    match inputs {
        [] => Ok(true),
        [first, others @ ..] => {
            if !is_valued(alloc, graph, &first.1)? {
                return Ok(false);
            }
            are_valued(alloc, graph, others)
        }
    }
}

/// Whether a thunk in reach is ready.
#[tactic(auto, using(crate::proofs::ThunksAreReady::ready, crate::proofs::ThunksAreReady::was_absorbed, crate::proofs::ThunksAreReady::was_barred, crate::proofs::ThunksAreReady::no_function))]
fn is_ready(
    alloc: Global,
    graph: &Graph,
    barred: &IndexSet<Name>,
    name: &Name,
    thunk: &Thunk,
) -> Result<bool, AllocError>
    requires { IsThunkInReach graph.now name.now }
    ensures { IfOk result (λ ready. Tells (IsReady graph.now barred.now.keys (name.now, thunk.now)) ready) }
{
    if graph.is_absorbed(name) {
        return Ok(false);
    }
    if has_name(barred, name) {
        return Ok(false);
    }
    if !is_valued(alloc, graph, thunk.function())? {
        return Ok(false);
    }
    are_valued(alloc, graph, thunk.inputs())
}

/// Lists a thunk in reach, if it is ready.
#[tactic(auto, using(crate::proofs::ThunksAreReady::more_taken, crate::proofs::ThunksAreReady::more_left))]
fn list_if_ready(
    alloc: Global,
    graph: &Graph,
    barred: &IndexSet<Name>,
    name: &Name,
    thunk: &Thunk,
    ready: &mut Vec<Name>,
) -> Result<(), AllocError>
    requires { IsThunkInReach graph.now name.now }
    ensures { OnOk result (PicksMore (IsReady graph.now barred.now.keys) (name.now, thunk.now) ready.old.items ready.new.items) }
{
    if !is_ready(alloc, graph, barred, name, thunk)? {
        return Ok(());
    }
    ready.push(*name)?;
    Ok(())
}

/// The names of the thunks that are ready, in order of adding. All that were added are in reach.
pub(crate) fn list_ready(
    alloc: Global,
    graph: &Graph,
    barred: &IndexSet<Name>,
) -> Result<Vec<Name>, AllocError>
    requires { AreAddedInReach graph.now }
    ensures { IfOk result (λ ready. AreReady graph.now barred.now.keys ready.items) }
{
    let mut ready = Vec::new(alloc);
    'thunks: for place in 0..graph.len() {
        let (name, thunk) = graph.thunk_at(place);
        list_if_ready(alloc, graph, barred, name, thunk, &mut ready)?;
    }
    Ok(ready)
}
