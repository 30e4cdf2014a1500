//! Plans of command lines.

ghost use Rattle.std.specs.Prelude.{◌≡◌, Ok, IfOk};
ghost use Rattle.model_gcc.specs.Values.{after_first};
ghost use Rattle.file_tree.specs.Planning.{Finds};
ghost use Rattle.model_gcc.specs.Plan.{plan_with, planned, plan_of};

use crate::checks::{first_unfit, has_file, is_within, needs_output, shared_output};
use crate::gcc_plan::{GccPlan, Stop};
use crate::slots::Slots;
use file_tree::{PlanFault, Reason, refused_at};
use object_name::Bytes;
use std::alloc::Global;

/// The place of the command's own word.
const OWN_WORD: u32 = 0;

/// What is given, as a plan.
fn plan_with(given: Slots) -> GccPlan
    ensures { result ≡ plan_with given }
{
    let Slots {
        stop,
        output,
        cpp_words,
        cc_words,
        include_folders,
        lib_folders,
        operands,
        ..
    } = given;
    GccPlan {
        stop: stop.unwrap_or(Stop::Link),
        output,
        cpp_words,
        cc_words,
        include_folders,
        lib_folders,
        operands,
    }
}

/// The plan of all words, of which this is given.
#[tactic(auto, unfolding(crate::specs::Plan::planned))]
fn planned(words: &[Bytes], given: Slots) -> Result<GccPlan, PlanFault>
    ensures { Finds result (planned words.now given) }
{
    let stop = given.stop.unwrap_or(Stop::Link);
    if given.waiting.is_some() {
        return Err(given.refused(Reason::NoValue));
    }
    if !has_file(given.operands.as_slice()) {
        return Err(refused_at(OWN_WORD, Reason::NoInput));
    }
    if needs_output(stop, &given.output) {
        return Err(refused_at(OWN_WORD, Reason::NeedsOutput));
    }
    if let Some(at) = shared_output(&given) {
        return Err(refused_at(at, Reason::OneFile));
    }
    if let Some(at) = first_unfit(stop, given.operands.as_slice(), given.places.as_slice()) {
        return Err(refused_at(at, Reason::WrongKind));
    }
    if !is_within(words, given.operands.as_slice()) {
        return Err(refused_at(OWN_WORD, Reason::TooMany));
    }
    Ok(plan_with(given))
}

/// The words after the command's own.
fn after_first(words: &[Bytes]) -> &[Bytes]
    ensures { result.now ≡ after_first words.now }
{
    match words.split_first() {
        Some((_, others)) => others,
        None => words,
    }
}

/// What a command line of gcc asks for. The first of its words is the command's own, `gcc` or `cc`, and isn't looked at.
pub fn plan(alloc: Global, words: &[Bytes]) -> Result<GccPlan, PlanFault>
    ensures exact { Finds result (plan_of words.now) }
    ensures found { IfOk result (λ plan. plan_of words.now ≡ Ok plan) }
{
    let given = Slots::read(alloc, after_first(words))?;
    planned(words, given)
}
