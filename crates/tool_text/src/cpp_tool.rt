//! The card `cpp`: the preprocessor.

ghost use Rattle.std.specs.Prelude.{◌≡◌, IfOk};
ghost use Rattle.std.specs.Option.{option_map};
ghost use Rattle.thunk_codec.specs.Files.{files_at};
ghost use Rattle.tool_text.specs.Views.{macros_of, settings_of};
ghost use Rattle.tool_text.specs.Cpp.{arguments_outcome, outcome_with, result_outcome, cpp_outcome};
ghost use Rattle.tool_text.specs.Preprocess.{preprocessed};

use crate::cpp_fault::CppFault;
use crate::macros::MacroTable;
use crate::processing::process;
use crate::settings::Settings;
use crate::state::State;
use crate::status::BAD_FORM;
use object_name::{Bytes, Many};
use std::alloc::{AllocError, Global};
use thunk_codec::{Folder, InputsByPath, Job, Outcome, Path};

/// The greatest number of files that are open at once: a source and 200 within one another.
const MAX_OPEN: u32 = 201;

/// The outcome of preprocessing a source.
#[tactic(auto, unfolding(crate::specs::Preprocess::preprocessed))]
fn preprocess(
    alloc: Global,
    inputs: &InputsByPath<'_>,
    folders: &[Folder],
    macros: MacroTable,
    source: &Path,
) -> Result<Outcome, AllocError>
    ensures { IfOk result (λ outcome. outcome ≡ result_outcome (preprocessed (files_at inputs.now) folders.now (macros_of macros) source.now)) }
{
    let mut state = State::new(alloc, macros);
    match process(alloc, inputs, folders, MAX_OPEN, source, &mut state) {
        Ok(()) => {
            let mut outputs = Many::new(alloc);
            outputs.push(state.out)?;
            Ok(Outcome::Done(outputs))
        }
        Err(CppFault::Failed(failure)) => Ok(Outcome::Failed(failure.status())),
        Err(CppFault::Memory) => Err(AllocError),
    }
}

/// The outcome of a job whose arguments are these.
fn arguments_outcome(alloc: Global, job: &Job, args: &[Bytes]) -> Result<Outcome, AllocError>
    ensures { IfOk result (λ outcome. outcome ≡ arguments_outcome job.now args.now) }
{
    let [source, args @ ..] = args else {
        return Ok(Outcome::Failed(BAD_FORM));
    };
    let inputs = job.inputs_by_path();
    let Some((path, _)) = inputs.find(source.as_slice()) else {
        return Ok(Outcome::Failed(BAD_FORM));
    };
    let Some(Settings { folders, macros }) = Settings::read(alloc, args)? else {
        return Ok(Outcome::Failed(BAD_FORM));
    };
    preprocess(alloc, &inputs, folders.as_slice(), macros, path)
}

/// The outcome of a job of the card `cpp`.
#[tactic(auto, unfolding(crate::specs::Cpp::cpp_outcome))]
pub fn cpp(alloc: Global, job: &Job) -> Result<Outcome, AllocError>
    ensures { IfOk result (λ outcome. outcome ≡ cpp_outcome job.now) }
{
    if job.outputs.len() != 1 {
        return Ok(Outcome::Failed(BAD_FORM));
    }
    arguments_outcome(alloc, job, job.args.as_slice())
}
