//! A script of commands of every kind, inferred and built at once.

use blob_store::MemKeeper;
use build_script::{build_at_once, infer};
use file_tree::{FileRead, MemTree, Tree};
use object_name::{Bytes, Many};
use std::alloc::Global;
use std::test::Fail;
use thunk_codec::Path;

/// Commands of every kind: seven of them, which make seven thunks.
const SCRIPT: &[u8] = b"# a program\n\ngcc -c twice.c\nar rcs libtwice.a twice.o\n\
gcc main.s -L. -ltwice -o prog\nstrip prog\ncp prog copy\nmv copy moved\nrm -f twice.o\n";

/// What the program is.
const PROGRAM: &[u8] =
    b"gg-exe 1\nsym main 4\npush 21\ncall twice\nprint\nret\nsym twice 3\npush 2\nmul\nret\nend\n";

/// The path of a text.
fn path(alloc: Global, text: &[u8]) -> Result<Path, Fail> {
    Ok(Path::read(alloc, text)?.ok_or("a path")?)
}

/// The sources.
fn sources(alloc: Global) -> Result<MemTree, Fail> {
    let mut files = Many::new(alloc);
    let twice = Bytes::from_slice(alloc, b"fn twice : 2 *\n")?;
    files.push((path(alloc, b"twice.c")?, twice))?;
    let main = Bytes::from_slice(alloc, b"main:\npush 21\ncall twice\nprint\nret\n")?;
    files.push((path(alloc, b"main.s")?, main))?;
    Ok(MemTree::new(alloc, files, Many::new(alloc))?)
}

/// The bytes of a file.
fn bytes_at(alloc: Global, tree: &mut MemTree, text: &[u8]) -> Result<Bytes, Fail> {
    let path = path(alloc, text)?;
    match tree.read(alloc, &path) {
        Ok(FileRead::Bytes(bytes)) => Ok(bytes),
        _ => Err("a file")?,
    }
}

#[test]
fn a_script_is_inferred(rt: HostRuntime) -> Result<(), Fail> {
    let alloc = rt.alloc();
    let mut tree = sources(alloc)?;
    let nothing = Many::new(alloc);
    let mut keeper = MemKeeper::new(alloc, nothing, Many::new(alloc), Many::new(alloc))?;
    let inferred = infer(alloc, SCRIPT, &mut tree, &mut keeper, 0)
        .ok()
        .ok_or("inferred")?;
    assert_eq!(rt; inferred.commands, 7);
    assert_eq!(rt; inferred.thunks, 7);
    Ok(())
}

#[test]
fn a_script_is_built_at_once(rt: HostRuntime) -> Result<(), Fail> {
    let alloc = rt.alloc();
    let mut tree = sources(alloc)?;
    let commands = build_at_once(alloc, SCRIPT, &mut tree, 0)
        .ok()
        .ok_or("built")?;
    assert_eq!(rt; commands, 7);
    assert_eq!(rt; bytes_at(alloc, &mut tree, b"moved")?.as_slice(), PROGRAM);
    Ok(())
}
