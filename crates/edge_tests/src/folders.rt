//! Folders for tests, under the system's folder for temporary files.

use object_name::{SPELLING_LEN, name_of};
use std::alloc::Global;
use std::test::Fail;
use std::{env, io, process};
use thunk_codec::Path;

/// The number of the process for which keepers and trees write. The first name beside others that it has is `·7.0`.
pub const PROCESS: u32 = 7;

/// A folder for one test.
pub fn test_folder(rt: &HostRuntime, test: &str) -> io::Result<String> {
    let parent = env::temp_dir(rt)?;
    let parent = parent.as_str();
    let number = process::id(rt.process());
    Ok(format!(in rt.alloc(); "{parent}/gg-edge-{number}-{test}")?)
}

/// A path of a tree.
pub fn path(alloc: Global, text: &[u8]) -> Result<Path, Fail> {
    Ok(Path::read(alloc, text)?.ok_or("there is a path")?)
}

/// The path of the file of the object `abc` in the folder of a keeper.
pub fn path_of_abc(alloc: Global, root: &str) -> Result<String, Fail> {
    let mut path = format!(in alloc; "{root}/objects/")?;
    let mut spelled = [0u8; SPELLING_LEN];
    name_of(b"abc")?.spell(&mut spelled);
    for letter in spelled {
        path.push(char::from(letter))?;
    }
    Ok(path)
}
