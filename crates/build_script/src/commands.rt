//! Plans of commands, whatever their first word.

ghost use Rattle.std.specs.Prelude.{◌≡◌, IfOk};
ghost use Rattle.file_tree.specs.Planning.{Finds};
ghost use Rattle.build_plan.specs.Fitting.{IsFitPlan};
ghost use Rattle.build_script.specs.Commands.{command_plan, gcc_command, is_gcc, other_command, own_word, word_at};

use build_plan::Plan;
use file_tree::PlanFault;
use object_name::Bytes;
use std::alloc::Global;

/// The command's own word, the first; empty where there is none.
pub fn own_word(words: &[Bytes]) -> &[u8]
    ensures { result.now ≡ own_word words.now }
{
    match words.split_first() {
        Some((word, _)) => word.as_slice(),
        None => b"",
    }
}

/// The word at a place, or the command's own where the place is behind the last.
pub fn word_at(words: &[Bytes], place: u32) -> &[u8]
    ensures { result.now ≡ word_at words.now place }
{
    match words.get(place as usize) {
        Some(word) => word.as_slice(),
        None => own_word(words),
    }
}

/// Whether a command is gcc.
fn is_gcc(word: &[u8]) -> bool
    ensures { result ≡ is_gcc word.now }
{
    word == b"gcc".as_slice() || word == b"cc".as_slice()
}

/// The plan of a command of gcc.
fn gcc_command(alloc: Global, words: &[Bytes]) -> Result<Plan, PlanFault>
    ensures exact { Finds result (gcc_command words.now) }
    ensures fits { IfOk result IsFitPlan }
{
    let plan = model_gcc::plan(alloc, words)?;
    let made = model_gcc::build_of(alloc, &plan)?;
    Ok(made)
}

/// The plan of any other command.
fn other_command(alloc: Global, words: &[Bytes]) -> Result<Plan, PlanFault>
    ensures exact { Finds result (other_command words.now) }
    ensures fits { IfOk result IsFitPlan }
{
    let plan = model_binutils::plan(alloc, words)?;
    let made = model_binutils::build_of(alloc, &plan)?;
    Ok(made)
}

/// The plan of a command's words, of which the first is its own: `gcc` and `cc` are read by the model of gcc, and any other by that of
/// `ar` and its like. Each thunk of the plan keeps a thunk's rules.
pub fn plan_command(alloc: Global, words: &[Bytes]) -> Result<Plan, PlanFault>
    ensures exact { Finds result (command_plan words.now) }
    ensures fits { IfOk result IsFitPlan }
{
    if is_gcc(own_word(words)) {
        return gcc_command(alloc, words);
    }
    other_command(alloc, words)
}
