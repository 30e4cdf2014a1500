//! What a line does.

ghost use Rattle.std.specs.Prelude.{◌≡◌, false};
ghost use Rattle.tool_text.specs.Directive as form;
ghost use Rattle.tool_text.specs.Views.{groups_of, state_of, taken_of};
ghost use Rattle.tool_text.specs.Preprocess.{acted, skipped, stepped, taken};
ghost use Rattle.tool_text.specs.Seen.{seen};
ghost use Rattle.tool_text.specs.Tries.{Tries};

use crate::cpp_fault::CppFault;
use crate::directive::{Directive, Target, directive_of};
use crate::failure::Failure;
use crate::groups::Groups;
use crate::state::State;
use std::alloc::Global;

/// The effect of a line in an active group, and the file that is to be processed in its place.
#[tactic(auto, unfolding(crate::specs::Preprocess::acted))]
fn act<'a>(
    alloc: Global,
    directive: Directive<'a>,
    line: &[u8],
    groups: &mut Groups,
    state: &mut State,
) -> Result<Option<Target<'a>>, CppFault>
    ensures { Tries (taken_of groups.new state.new) result (acted (seen directive.entry) line.now (groups_of groups.old) (state_of state.old)) }
{
    match directive {
        Directive::Text => state.write_line(line)?,
        Directive::Empty => {}
        Directive::Include(Some(target)) => return Ok(Some(target)),
        Directive::Define(Some((name, text))) => state.define(alloc, name, text)?,
        Directive::Undef(Some(name)) => state.forget(name),
        Directive::Ifdef(Some(name)) => groups.begin(state.macros.get(name).is_some())?,
        Directive::Ifndef(Some(name)) => groups.begin(state.macros.get(name).is_none())?,
        Directive::If(Some(number)) => groups.begin(number != 0)?,
        Directive::Else(of_form) => groups.turn(of_form)?,
        Directive::Endif(of_form) => groups.end(of_form)?,
        _ => return Err(CppFault::Failed(Failure::BadDirective)),
    }
    Ok(None)
}

/// What a line in an inactive group does to the groups.
#[tactic(auto, unfolding(crate::specs::Preprocess::skipped))]
fn skip(directive: Directive<'_>, groups: &mut Groups) -> Result<(), CppFault>
    ensures { Tries (λ _. groups_of groups.new) result (skipped (seen directive.entry) (groups_of groups.old)) }
{
    match directive {
        Directive::Ifdef(_) | Directive::Ifndef(_) | Directive::If(_) => groups.begin(false)?,
        Directive::Else(of_form) => groups.turn(of_form)?,
        Directive::Endif(of_form) => groups.end(of_form)?,
        _ => {}
    }
    Ok(())
}

/// What a line does that was counted.
#[tactic(auto, unfolding(crate::specs::Preprocess::stepped))]
fn step<'a>(
    alloc: Global,
    line: &'a [u8],
    groups: &mut Groups,
    state: &mut State,
) -> Result<Option<Target<'a>>, CppFault>
    ensures { Tries (taken_of groups.new state.new) result (stepped line.now (groups_of groups.old) (state_of state.old)) }
{
    let directive = directive_of(line);
    if groups.is_active() {
        return act(alloc, directive, line, groups, state);
    }
    skip(directive, groups)?;
    Ok(None)
}

/// Counts a line and does what it says. It gives the file that is to be processed in its place.
#[tactic(auto, unfolding(crate::specs::Preprocess::taken))]
pub(crate) fn take_line<'a>(
    alloc: Global,
    line: &'a [u8],
    groups: &mut Groups,
    state: &mut State,
) -> Result<Option<Target<'a>>, CppFault>
    ensures { Tries (taken_of groups.new state.new) result (taken line.now (groups_of groups.old) (state_of state.old)) }
{
    state.count_line()?;
    step(alloc, line, groups, state)
}
