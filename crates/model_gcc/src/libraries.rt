//! Where libraries are looked for.

ghost use Rattle.std.specs.Prelude.{◌≡◌, ◌++◌, ◌∷◌, [], IfOk, Some};
ghost use Rattle.model_gcc.specs.Values.{library_name_of};
ghost use Rattle.model_gcc.specs.Libraries.{library_file, system_folder, and_path, seen_from, library_places};

use build_plan::{Step, known_path};
use object_name::{Bytes, Many};
use std::alloc::{AllocError, Global};
use thunk_codec::{Folder, Path};

/// The file of a library.
fn library_file(alloc: Global, name: &[u8]) -> Result<Bytes, AllocError>
    ensures { IfOk result (λ text. text ≡ library_file name.now) }
{
    let mut text = Bytes::from_slice(alloc, b"lib")?;
    text.append(name)?;
    text.append(b".a")?;
    Ok(text)
}

/// The folder in which libraries are looked for last.
fn system_folder(alloc: Global) -> Result<Folder, AllocError>
    ensures { IfOk result (λ folder. folder ≡ system_folder) }
{
    match Folder::read(alloc, b"sys/lib")? {
        Some(folder) => Ok(folder),
        None => unreachable!(),
    }
}

/// Some paths, and the path of a file in one folder more.
fn with_folder(
    alloc: Global,
    mut paths: Many<Path>,
    folder: &Folder,
    file: &[u8],
) -> Result<Many<Path>, AllocError>
    ensures { IfOk result (λ more. more ≡ paths ++ seen_from (folder.now ∷ []) file.now) }
{
    if let Some(path) = folder.join(alloc, file)? {
        paths.push(path)?;
    }
    Ok(paths)
}

/// The paths of a file in some folders, and then in the system's.
fn places(alloc: Global, folders: &[Folder], file: &[u8]) -> Result<Many<Path>, AllocError>
    ensures { IfOk result (λ paths. paths ≡ seen_from (folders.now ++ system_folder ∷ []) file.now) }
{
    let mut paths = Many::new(alloc);
    let mut rest = folders;
    'folders: while let [folder, others @ ..] = rest {
        let more = with_folder(alloc, paths, folder, file)?;
        paths = more;
        rest = others;
    }
    let last = system_folder(alloc)?;
    with_folder(alloc, paths, &last, file)
}

/// A library, which is looked for in some folders and then in the system's.
pub(crate) fn find_library(
    alloc: Global,
    folders: &[Folder],
    name: &[u8],
) -> Result<Step, AllocError>
    requires { library_name_of name.now ≡ Some name.now }
    ensures { IfOk result (λ step. step ≡ Step.Find (library_file name.now) (library_places folders.now name.now)) }
{
    let file = library_file(alloc, name)?;
    let places = places(alloc, folders, file.as_slice())?;
    let missing = known_path(alloc, file.as_slice())?;
    Ok(Step::Find { missing, places })
}
