//! The thunks that are newly in reach.

ghost use Rattle.std.specs.Prelude.{◌≡◌, ◌+◌, ◌<◌, ◌≤◌, ◌++◌, ◌∷◌, [], false, OnOk};
ghost use Rattle.indexmap.specs.IndexSet.{spare};
ghost use Rattle.dep_tracker.specs.Known.{has_name};
ghost use Rattle.dep_tracker.specs.Tracked.{with_new, with_all_new, without};

use crate::graph::Graph;
use crate::names::same_name;
use crate::ref_set::{Node, RefSet};
use indexmap::IndexSet;
use object_name::Name;
use std::alloc::AllocError;

/// Whether a set has a name.
pub(crate) fn has_name(names: &IndexSet<Name>, name: &Name) -> bool
    ensures { result ≡ has_name names.now.keys name.now }
{
    names.contains(name)
}

/// Lists a thunk, unless it is added, barred or listed.
fn list_thunk(
    graph: &Graph,
    barred: &IndexSet<Name>,
    name: &Name,
    listed: &mut IndexSet<Name>,
) -> Result<(), AllocError>
    ensures { OnOk result (listed.new.keys ≡ with_new graph.now barred.now.keys listed.old.keys name.now) }
{
    if graph.is_added(name) || has_name(barred, name) {
        return Ok(());
    }
    listed.insert(*name)?;
    Ok(())
}

/// Lists the thunks in reach that are neither added nor barred nor listed, in order.
pub(crate) fn list_new(
    graph: &Graph,
    barred: &IndexSet<Name>,
    reach: &RefSet,
    listed: &mut IndexSet<Name>,
) -> Result<(), AllocError>
    ensures { OnOk result (listed.new.keys ≡ with_all_new graph.now barred.now.keys listed.old.keys reach.now) }
{
    let nodes = reach.nodes();
    'nodes: for node in nodes {
        if let Node::Out(name, _) = node {
            list_thunk(graph, barred, name, listed)?;
        }
    }
    Ok(())
}

/// Takes a name out of a set.
pub(crate) fn take_name(names: &mut IndexSet<Name>, name: &Name)
    ensures { names.new.keys ≡ without names.old.keys name.now }
{
    names.retain(|other| !same_name(name, other));
}

/// Takes a name off a list.
pub(crate) fn take_off(names: &mut Vec<Name>, name: &Name)
    ensures { names.new.items ≡ without names.old.items name.now }
{
    names.retain(|other| !same_name(name, other));
}

/// Puts a name that is new into a set where there is room.
pub(crate) fn put_name(names: &mut IndexSet<Name>, name: Name)
    requires new { has_name names.old.keys name ≡ false }
    requires room { 0 < spare names.old }
    ensures names { names.new.keys ≡ names.old.keys ++ name ∷ [] }
    ensures room { spare names.old ≤ spare names.new + 1 }
{
    let _done = names.insert(name);
}
