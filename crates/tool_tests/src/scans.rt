//! The files that scanning a source lists.

use file_tree::MemTree;
use include_scan::scan;
use object_name::{Bytes, Many};
use std::alloc::Global;
use std::test::Fail;
use thunk_codec::{Folder, Path};

/// Paths and the texts of the files there.
const FILES: [(&[u8], &[u8]); 7] = [
    (
        b"s/a.c",
        b"#include \"x.h\"\n#include <y.h>\n#ifdef Z\n#include <z.h>\n#endif\n#include <none.h>\n",
    ),
    (b"s/x.h", b"#include \"a.c\"\n"),
    (b"p/x.h", b""),
    (b"p/y.h", b""),
    (b"q/y.h", b""),
    (b"sys/include/y.h", b""),
    (b"sys/include/z.h", b""),
];

/// What is scanned: a header beside its source, one in the folder, and one of the system.
const SCANNED: &[u8] = b"p/y.h\ns/a.c\ns/x.h\nsys/include/z.h\n";

/// The path of a text.
fn path(alloc: Global, text: &[u8]) -> Result<Path, Fail> {
    Ok(Path::read(alloc, text)?.ok_or("a path")?)
}

/// A tree of the files, of which no call fails.
fn tree(alloc: Global) -> Result<MemTree, Fail> {
    let mut held = Many::new(alloc);
    for (text, bytes) in FILES {
        let bytes = Bytes::from_slice(alloc, bytes)?;
        held.push((path(alloc, text)?, bytes))?;
    }
    Ok(MemTree::new(alloc, held, Many::new(alloc))?)
}

/// The paths, each with a line feed after it.
fn lines(alloc: Global, paths: &[Path]) -> Result<Bytes, Fail> {
    let mut text = Bytes::new(alloc);
    for path in paths {
        text.append(path.text())?;
        text.append(b"\n")?;
    }
    Ok(text)
}

#[test]
fn a_source_is_scanned(rt: HostRuntime) -> Result<(), Fail> {
    let alloc = rt.alloc();
    let folder = Folder::read(alloc, b"p")?.ok_or("a folder")?;
    let source = path(alloc, b"s/a.c")?;
    let mut tree = tree(alloc)?;
    let paths = scan(alloc, &mut tree, &source, &[folder], 0)?;
    assert_eq!(rt; lines(alloc, paths.as_slice())?.as_slice(), SCANNED);
    Ok(())
}
