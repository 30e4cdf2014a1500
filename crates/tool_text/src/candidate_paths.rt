//! Where an included file is looked for.

ghost use Rattle.std.specs.Prelude.{◌≡◌, ◌++◌, ◌∷◌, [], map, codes, unwrap_or, IfOk};
ghost use Rattle.std.specs.Option.{option_copied};
ghost use Rattle.thunk_codec.specs.Folder.{joined_from};
ghost use Rattle.thunk_codec.specs.Files.{files_at};
ghost use Rattle.tool_text.specs.Including as including;
ghost use Rattle.tool_text.specs.Seen.{target_seen};

use crate::directive::Target;
use object_name::Many;
use std::alloc::{AllocError, Global};
use thunk_codec::{Folder, InputsByPath, Path};

/// The path of a file in the folder of the system.
fn in_system(alloc: Global, file: &[u8]) -> Result<Option<Path>, AllocError>
    ensures { IfOk result (λ path. path ≡ joined_from (codes "sys/include") file.now) }
{
    let Some(folder) = Folder::read(alloc, b"sys/include")? else {
        return Ok(None);
    };
    folder.join(alloc, file)
}

/// Appends the candidates for a file in the include folders and in the folder of the system.
fn add_candidates(
    alloc: Global,
    prefix: Many<Option<Path>>,
    folders: &[Folder],
    file: &[u8],
) -> Result<Many<Option<Path>>, AllocError>
    ensures { IfOk result (λ all. all ≡ prefix ++ map (λ folder. joined_from folder file.now) (folders.now ++ codes "sys/include" ∷ [])) }
{
    let mut all = prefix;
    'folders: for folder in folders {
        all.push(folder.join(alloc, file)?)?;
    }
    all.push(in_system(alloc, file)?)?;
    Ok(all)
}

/// The candidates for an included file, in the order in which they are looked at. None stands where the text is no path from that
/// folder.
#[tactic(auto, unfolding(crate::specs::Including::candidates))]
pub fn candidates(
    alloc: Global,
    folders: &[Folder],
    path: &Path,
    target: Target<'_>,
) -> Result<Many<Option<Path>>, AllocError>
    ensures { IfOk result (λ all. all ≡ including.candidates folders.now path.now (target_seen target.entry)) }
{
    let mut all = Many::new(alloc);
    match target {
        Target::Quoted(file) => {
            all.push(path.folder(alloc)?.join(alloc, file)?)?;
            add_candidates(alloc, all, folders, file)
        }
        Target::Angled(file) => add_candidates(alloc, all, folders, file),
    }
}

/// The path of a candidate, where it has one and a file is there.
fn there<'a>(inputs: &InputsByPath<'_>, candidate: &'a Option<Path>) -> Option<&'a Path>
    ensures { option_copied result ≡ including.first_there (files_at inputs.now) (candidate.now ∷ []) }
{
    let Some(path) = candidate else {
        return None;
    };
    if inputs.find(path.text()).is_none() {
        return None;
    }
    Some(path)
}

/// The path of the first candidate that has one where a file is.
pub(crate) fn first_there<'a>(
    inputs: &InputsByPath<'_>,
    candidates: &'a [Option<Path>],
) -> Option<&'a Path>
    ensures { option_copied result ≡ including.first_there (files_at inputs.now) candidates.now }
{
    let mut rest = candidates;
    'candidates: while let [candidate, others @ ..] = rest {
        if let Some(path) = there(inputs, candidate) {
            return Some(path);
        }
        rest = others;
    }
    None
}

/// The bytes of a file, or none where it isn't there.
pub(crate) fn bytes_of<'a>(inputs: &InputsByPath<'a>, path: &Path) -> &'a [u8]
    ensures { result.now ≡ unwrap_or (files_at inputs.now path.now) [] }
{
    match inputs.find(path.text()) {
        Some((_, bytes)) => bytes.as_slice(),
        None => &[],
    }
}
