//! Which references have values.

ghost use Rattle.std.specs.Prelude.{◌≡◌, IfOk};
ghost use Rattle.thunk_codec.specs.declared.reference.Ref.TheVariants.{Out};
ghost use Rattle.dep_tracker.specs.Chain.{IsLink};
ghost use Rattle.dep_tracker.specs.Listing.{Tells};
ghost use Rattle.dep_tracker.specs.Reach.{IsValued};

use crate::graph::Graph;
use crate::ref_set::RefSet;
use object_name::{Kind, Name};
use std::alloc::{AllocError, Global};
use thunk_codec::Ref;

/// A link of a chain of yields.
pub(crate) enum Link {
    /// It has a value.
    Ends,
    /// It has none.
    Breaks,
    /// It has what this one has.
    Yields(Ref),
}

/// The link that an output is.
#[tactic(auto, using(crate::proofs::ChainsHaveValues::broken_none, crate::proofs::ChainsHaveValues::ends_value))]
fn output_link(graph: &Graph, name: &Name, index: u32) -> Link
    ensures { IsLink graph.now.absorbed (Out name.now index) result }
{
    let Some(output) = graph.output(name, index) else {
        return Link::Breaks;
    };
    match output.kind() {
        Kind::Value => Link::Ends,
        Kind::Thunk => Link::Yields(Ref::Out(output, 0)),
    }
}

/// The link that a reference is.
fn link_at(graph: &Graph, reference: &Ref) -> Link
    ensures { IsLink graph.now.absorbed reference.now result }
{
    match reference {
        Ref::Value(_) => Link::Ends,
        Ref::Out(name, index) => output_link(graph, name, *index),
    }
}

/// Whether a reference has a value.
pub(crate) fn is_valued(alloc: Global, graph: &Graph, reference: &Ref) -> Result<bool, AllocError>
    ensures { IfOk result (λ valued. Tells (IsValued graph.now.absorbed reference.now) valued) }
{
    let mut seen = RefSet::new(alloc);
    let mut here = *reference;
    'links: for _ in 0..u64::MAX {
        if seen.has(&here) {
            return Ok(false);
        }
        match link_at(graph, &here) {
            Link::Ends => return Ok(true),
            Link::Breaks => return Ok(false),
            Link::Yields(next) => {
                seen.push(&here)?;
                here = next;
            }
        }
    }
    Err(AllocError)
}
