//! Walks from what is wanted.

ghost use Rattle.std.specs.Prelude.{◌≡◌, ◌++◌, ◌∷◌, [], false, Some, IfOk, OnOk, reverse};
ghost use Rattle.thunk_codec.specs.declared.reference.Ref.TheVariants.{Out};
ghost use Rattle.dep_tracker.specs.Walk.{has, Steps};
ghost use Rattle.dep_tracker.specs.Known.{look_up, output_at, refs_in, same_ref};
ghost use Rattle.dep_tracker.specs.Reach.{IsReach, leads_to, yield_of};

use crate::graph::Graph;
use crate::ref_set::RefSet;
use object_name::{Kind, Name};
use std::alloc::{AllocError, Global};
use thunk_codec::{Ref, Thunk};

/// Appends the references of a thunk.
fn append_refs(thunk: &Thunk, onto: &mut Vec<Ref>) -> Result<(), AllocError>
    ensures { OnOk result (onto.new.items ≡ onto.old.items ++ refs_in (Some thunk.now)) }
{
    onto.push(*thunk.function())?;
    'inputs: for input in thunk.inputs() {
        onto.push(input.1)?;
    }
    Ok(())
}

/// Appends the references of a thunk, if it was added.
fn append_added(graph: &Graph, name: &Name, onto: &mut Vec<Ref>) -> Result<(), AllocError>
    ensures { OnOk result (onto.new.items ≡ onto.old.items ++ refs_in (look_up graph.now.added name.now)) }
{
    match graph.thunk(name) {
        Some(thunk) => append_refs(thunk, onto),
        None => Ok(()),
    }
}

/// Appends the reference that an output yields.
fn append_yield(output: Name, onto: &mut Vec<Ref>) -> Result<(), AllocError>
    ensures { OnOk result (onto.new.items ≡ onto.old.items ++ yield_of (Some output)) }
{
    match output.kind() {
        Kind::Value => Ok(()),
        Kind::Thunk => {
            onto.push(Ref::Out(output, 0))?;
            Ok(())
        }
    }
}

/// Appends the reference that an output yields, if it is known.
fn append_yielded(
    graph: &Graph,
    name: &Name,
    index: u32,
    onto: &mut Vec<Ref>,
) -> Result<(), AllocError>
    ensures { OnOk result (onto.new.items ≡ onto.old.items ++ yield_of (output_at graph.now.absorbed name.now index)) }
{
    match graph.output(name, index) {
        Some(output) => append_yield(output, onto),
        None => Ok(()),
    }
}

/// Appends what an output leads to.
fn append_next(
    graph: &Graph,
    name: &Name,
    index: u32,
    onto: &mut Vec<Ref>,
) -> Result<(), AllocError>
    ensures { OnOk result (onto.new.items ≡ onto.old.items ++ leads_to graph.now.absorbed graph.now.added (Out name.now index)) }
{
    append_added(graph, name, onto)?;
    append_yielded(graph, name, index, onto)
}

/// What a reference leads to, in order.
fn next_of(alloc: Global, graph: &Graph, reference: &Ref) -> Result<Vec<Ref>, AllocError>
    ensures { IfOk result (λ next. next.items ≡ leads_to graph.now.absorbed graph.now.added reference.now) }
{
    let mut next = Vec::new(alloc);
    match reference {
        Ref::Value(_) => {}
        Ref::Out(name, index) => append_next(graph, name, *index, &mut next)?,
    }
    Ok(next)
}

/// Meets a reference. What it leads to comes next.
fn meet(
    alloc: Global,
    graph: &Graph,
    reference: &Ref,
    met: &mut RefSet,
    todo: &mut Vec<Ref>,
) -> Result<(), AllocError>
    requires { has same_ref met.old reference.now ≡ false }
    ensures met { OnOk result (met.new ≡ met.old ++ reference.now ∷ []) }
    ensures todo { OnOk result (reverse todo.new.items ≡ leads_to graph.now.absorbed graph.now.added reference.now ++ reverse todo.old.items) }
{
    met.push(reference)?;
    let mut next = next_of(alloc, graph, reference)?;
    next.reverse();
    todo.append(&mut next)?;
    Ok(())
}

/// Goes on with a walk at a reference.
#[tactic(auto, using(crate::proofs::WalksGoOn::step_again, crate::proofs::WalksGoOn::step_first))]
fn step(
    alloc: Global,
    graph: &Graph,
    reference: &Ref,
    met: &mut RefSet,
    todo: &mut Vec<Ref>,
) -> Result<(), AllocError>
    ensures { OnOk result (Steps same_ref (leads_to graph.now.absorbed graph.now.added) met.old (reference.now ∷ reverse todo.old.items)
        met.new (reverse todo.new.items)) }
{
    if met.has(reference) {
        return Ok(());
    }
    meet(alloc, graph, reference, met, todo)
}

/// The references in reach, in the order of a depth-first walk from what is wanted.
#[tactic(auto, using(crate::proofs::WalksGoOn::steps_from, crate::proofs::WalksGoOn::steps_at, crate::proofs::WalksGoOn::steps_end))]
pub(crate) fn walk(alloc: Global, graph: &Graph) -> Result<RefSet, AllocError>
    ensures { IfOk result (λ met. IsReach graph.now met) }
{
    let mut met = RefSet::new(alloc);
    let mut todo = graph.roots().to_vec(alloc)?;
    todo.reverse();
    'steps: for _ in 0..u64::MAX {
        let Some(reference) = todo.pop() else {
            return Ok(met);
        };
        step(alloc, graph, &reference, &mut met, &mut todo)?;
    }
    Err(AllocError)
}
