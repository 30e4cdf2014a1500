//! The evaluation beside the plain program, over a family of small stores.

ghost use Rattle.std.specs.List.{AllByRecursion};
ghost use Rattle.thunk_codec.specs.Reference.{IsRef};

use crate::content::{Content, copied};
use crate::joining::Joins;
use crate::plain::{Plain, PlainFault};
use crate::scenes::{Dice, Scene, spoiled_notes, spoiled_objects};
use crate::texts::first_outputs;
use blob_store::MemKeeper;
use need_eval::{EvalFault, Refusal, Values, evaluate};
use object_name::{Bytes, Many, Name};
use std::alloc::Global;
use std::test::Fail;
use thunk_codec::Ref;

/// How many stores there are.
const STORES: u64 = 24;

/// The budgets that each store is tried with: all below this one, and one that is never spent.
const BUDGETS: u32 = 7;

/// A budget that is never spent.
const AMPLE: u32 = 1000;

/// All kinds of answers but those that the family can't show.
const ALL_KINDS: u32 = 63;

/// What an evaluation answered: the values and the number of steps, or why there are none.
type Answer = Result<(Many<Name>, u32), PlainFault>;

/// What an evaluation answered and wrote, and what is kept then.
#[derive(Drop)]
struct Seen {
    answer: Answer,
    puts: Vec<Name>,
    content: Content,
}

/// The kind of an answer, as a power of two.
fn kind_of(answer: &Answer) -> u32 {
    match answer {
        Ok(_) => 1,
        Err(PlainFault::Refused(Refusal::Missing(_))) => 2,
        Err(PlainFault::Refused(Refusal::BadThunk(_))) => 4,
        Err(PlainFault::Refused(Refusal::NoOutput { .. })) => 8,
        Err(PlainFault::Refused(Refusal::Spent { .. })) => 16,
        Err(PlainFault::Refused(Refusal::FunctionFailed { .. })) => 32,
        Err(_) => 64,
    }
}

/// What `evaluate` answers. Its contract ends here.
fn evaluated(
    alloc: Global,
    keeper: &mut MemKeeper,
    refs: Many<Ref>,
    budget: u32,
) -> Result<Values, EvalFault>
    requires { AllByRecursion IsRef refs }
{
    evaluate(alloc, keeper, refs, budget, 0, &mut Joins)
}

/// The fault of `evaluate`, as the plain program would give it.
fn fault_of(fault: &EvalFault) -> PlainFault {
    match fault {
        EvalFault::Refused(refusal) => PlainFault::Refused(*refusal),
        _ => PlainFault::Memory,
    }
}

/// An answer of `evaluate`, as the plain program would give it.
fn answer_of(evaluated: Result<Values, EvalFault>) -> Answer {
    match evaluated {
        Ok(values) => Ok((values.names, values.steps)),
        Err(fault) => Err(fault_of(&fault)),
    }
}

/// What `evaluate` does with the first outputs of some thunks.
fn walked(alloc: Global, content: &Content, names: &[Name], budget: u32) -> Result<Seen, Fail> {
    let objects = Many(copied(alloc, content.objects.as_slice())?);
    let notes = Many(copied(alloc, content.notes.as_slice())?);
    let mut keeper = MemKeeper::new(alloc, objects, notes, Many::new(alloc))?;
    let refs = first_outputs(alloc, names)?;
    let answer = answer_of(evaluated(alloc, &mut keeper, refs, budget));
    observed(alloc, answer, keeper)
}

/// What a keeper shows after an evaluation.
fn observed(alloc: Global, answer: Answer, keeper: MemKeeper) -> Result<Seen, Fail> {
    let Many(puts) = keeper.puts(alloc)?;
    let (objects, notes) = keeper.into_content();
    let content = Content {
        objects: objects.0,
        notes: notes.0,
    };
    Ok(Seen {
        answer,
        puts,
        content,
    })
}

/// What the plain program does with them.
fn plainly(alloc: Global, content: &Content, names: &[Name], budget: u32) -> Result<Seen, Fail> {
    let mut plain = Plain {
        alloc,
        content: Content {
            objects: copied(alloc, content.objects.as_slice())?,
            notes: copied(alloc, content.notes.as_slice())?,
        },
        puts: Vec::new(alloc),
        reduced: Vec::new(alloc),
        steps: 0,
        budget,
    };
    let refs = first_outputs(alloc, names)?;
    let found = plain.values(refs.as_slice(), budget);
    let Plain {
        content,
        puts,
        steps,
        ..
    } = plain;
    let answer = match found {
        Ok(names) => Ok((names, steps)),
        Err(fault) => Err(fault),
    };
    Ok(Seen {
        answer,
        puts,
        content,
    })
}

/// Whether two answers are the same values after the same steps, or the same refusal.
fn is_same(one: &Answer, other: &Answer) -> bool {
    match (one, other) {
        (Ok(one), Ok(other)) => one.1 == other.1 && one.0 == other.0,
        (Err(PlainFault::Refused(one)), Err(PlainFault::Refused(other))) => *one == *other,
        _ => false,
    }
}

/// Whether two evaluations answered the same, wrote the same in one order, and left the same.
fn agree(one: &Seen, other: &Seen) -> bool {
    is_same(&one.answer, &other.answer)
        && one.puts == other.puts
        && one.content.objects == other.content.objects
        && one.content.notes == other.content.notes
}

/// Evaluates both ways over a content, and answers what both show. The kind of the answer is added.
fn compared(
    alloc: Global,
    kinds: &mut u32,
    content: &Content,
    names: &[Name],
    budget: u32,
) -> Result<Content, Fail> {
    let ours = walked(alloc, content, names, budget)?;
    let plain = plainly(alloc, content, names, budget)?;
    *kinds |= kind_of(&plain.answer);
    if !agree(&ours, &plain) {
        return Err(Fail::from("the two differ"));
    }
    Ok(plain.content)
}

/// A content with some objects taken away or damaged, and some notes replaced.
fn spoiled(
    alloc: Global,
    objects: &[(Name, Bytes)],
    notes: &[(Name, Bytes)],
    seed: u64,
) -> Result<Content, Fail> {
    let mut dice = Dice(seed);
    let objects = spoiled_objects(alloc, &mut dice, objects)?;
    let notes = spoiled_notes(alloc, &mut dice, notes)?;
    Ok(Content { objects, notes })
}

/// Compares over the store of a number, whose thunks are wanted, and over what is left of it, spoiled.
fn compare_store(alloc: Global, kinds: &mut u32, seed: u64, budget: u32) -> Result<(), Fail> {
    let mut scene = Scene::new(alloc, seed)?;
    if seed & 1 == 1 {
        scene.names.reverse();
    }
    let names = scene.names.as_slice();
    let content = spoiled(alloc, scene.objects.as_slice(), &[], seed)?;
    let after = compared(alloc, kinds, &content, names, budget)?;
    let seed = seed.wrapping_add(u64::from(budget));
    let again = spoiled(
        alloc,
        after.objects.as_slice(),
        after.notes.as_slice(),
        seed,
    )?;
    let _ = compared(alloc, kinds, &again, names, budget)?;
    Ok(())
}

/// Compares with each budget.
fn compare_budgets(alloc: Global, kinds: &mut u32, seed: u64) -> Result<(), Fail> {
    for budget in 0..BUDGETS {
        compare_store(alloc, kinds, seed, budget)?;
    }
    compare_store(alloc, kinds, seed, AMPLE)
}

#[test]
fn the_walker_does_what_the_plain_program_does(rt: HostRuntime) -> Result<(), Fail> {
    let mut kinds = 0;
    for seed in 0..STORES {
        compare_budgets(rt.alloc(), &mut kinds, seed)?;
    }
    assert_eq!(rt; kinds, ALL_KINDS);
    Ok(())
}
