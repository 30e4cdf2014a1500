//! Files, processed line by line.

ghost use Rattle.std.specs.Prelude.{◌≡◌, Ok, Err};
ghost use Rattle.thunk_codec.specs.Folder as folder;
ghost use Rattle.thunk_codec.specs.Files.{files_at};
ghost use Rattle.tool_text.specs.Including as including;
ghost use Rattle.tool_text.specs.Preprocess.{processed, found_or_not};
ghost use Rattle.tool_text.specs.Seen.{target_seen};
ghost use Rattle.tool_text.specs.Views.{state_of};
ghost use Rattle.tool_text.specs.Tries.{Tries};

use crate::candidate_paths::{bytes_of, candidates, first_there};
use crate::cpp_fault::CppFault;
use crate::directive::Target;
use crate::failure::Failure;
use crate::groups::Groups;
use crate::line_effects::take_line;
use crate::state::State;
use object_name::TryCopy;
use std::alloc::Global;
use text_lines::next_line;
use thunk_codec::{Folder, InputsByPath, Path};

/// The file that an include line asks for.
fn find(
    alloc: Global,
    inputs: &InputsByPath<'_>,
    folders: &[Folder],
    path: &Path,
    target: Target<'_>,
) -> Result<Path, CppFault>
    ensures { Tries (λ found. found) result (found_or_not (including.first_there (files_at inputs.now) (including.candidates folders.now path.now (target_seen target.entry)))) }
{
    let candidates = candidates(alloc, folders, path, target)?;
    let Some(found) = first_there(inputs, candidates.as_slice()) else {
        return Err(CppFault::Failed(Failure::HeaderNotFound));
    };
    Ok(found.copy(alloc)?)
}

/// Processes a file, with so many levels of files that may still be entered, itself counted.
pub(crate) fn process(
    alloc: Global,
    inputs: &InputsByPath<'_>,
    folders: &[Folder],
    levels: u32,
    path: &Path,
    state: &mut State,
) -> Result<(), CppFault>
    ensures { Tries (λ _. state_of state.new) result (processed (files_at inputs.now) folders.now levels path.now (state_of state.old)) }
{
    if levels == 0 {
        return Err(CppFault::Failed(Failure::TooDeep));
    }
    let mut groups = Groups::new(alloc);
    let mut rest = bytes_of(inputs, path);
    'lines: while let Some((line, after)) = next_line(rest) {
        rest = after;
        let target = match take_line(alloc, line, &mut groups, state) {
            Ok(target) => target,
            Err(fault) => return Err(fault),
        };
        let Some(target) = target else {
            continue;
        };
        let found = match find(alloc, inputs, folders, path, target) {
            Ok(found) => found,
            Err(fault) => return Err(fault),
        };
        if let Err(fault) = process(alloc, inputs, folders, levels - 1, &found, state) {
            return Err(fault);
        }
    }
    groups.close()
}
