//! What is made of parts, and copies.

use object_name::{Bytes, Kind, Many, Name, TryCopy};
use std::alloc::Global;
use std::test::Fail;
use thunk_codec::{
    Folder, MakeFault, Outcome, Path, Ref, Thunk, decode, encode, write_placeholder,
};

const FUNCTION: &[u8] = b"VkU_0qI-jaxktmjRiZaXqmNdWhWCmVYh8huuzG8-Zhjg0000000c";

const PLAIN: &[u8] =
    b"gg-thunk 1\nf VkU_0qI-jaxktmjRiZaXqmNdWhWCmVYh8huuzG8-Zhjg0000000c\no 3:out\nend\n";

const OUTPUT: &[u8] = b"TIleAA7uMt28irpGXVG9w-24p1WzhEWDiO1nv5alY1w4000000ff";

const PLACEHOLDER: &[u8] =
    b"gg-placeholder 1\nTIleAA7uMt28irpGXVG9w-24p1WzhEWDiO1nv5alY1w4000000ff#7\n";

/// The path of a text, alone.
fn one_path(alloc: Global, text: &[u8]) -> Result<Many<Path>, Fail> {
    let path = Path::read(alloc, text)?.ok_or("a path")?;
    let mut paths = Many::new(alloc);
    paths.push(path)?;
    Ok(paths)
}

/// A thunk without arguments, environment and inputs.
fn make_plain(alloc: Global, function: Ref, outputs: Many<Path>) -> Result<Thunk, MakeFault> {
    let args = Many::new(alloc);
    let envs = Many::new(alloc);
    let inputs = Many::new(alloc);
    Thunk::make(alloc, function, args, envs, inputs, outputs)
}

#[test]
fn a_thunk_is_made_of_parts(rt: HostRuntime) -> Result<(), Fail> {
    let alloc = rt.alloc();
    let function = Ref::read(FUNCTION).ok_or("a reference")?;
    let thunk = make_plain(alloc, function, one_path(alloc, b"out")?)?;
    assert_eq!(rt; encode(alloc, &thunk)?.as_slice(), PLAIN);
    Ok(())
}

#[test]
fn a_thunk_is_copied(rt: HostRuntime) -> Result<(), Fail> {
    let thunk = decode(rt.alloc(), PLAIN)?;
    let copy = thunk.copy(rt.alloc())?;
    assert_eq!(rt; copy.outputs().len(), 1);
    Ok(())
}

#[test]
fn an_outcome_is_copied(rt: HostRuntime) -> Result<(), Fail> {
    let mut outputs = Many::new(rt.alloc());
    outputs.push(Bytes::new(rt.alloc()))?;
    let copy = Outcome::Done(outputs).copy(rt.alloc())?;
    assert!(rt; matches!(copy, Outcome::Done(_)));
    Ok(())
}

#[test]
fn a_folder_is_copied(rt: HostRuntime) -> Result<(), Fail> {
    let folder = Folder::read(rt.alloc(), b"a/./b/")?.ok_or("a folder")?;
    let copy = folder.copy(rt.alloc())?;
    assert_eq!(rt; copy.text(), b"a/b".as_slice());
    Ok(())
}

#[test]
fn a_placeholder_is_written(rt: HostRuntime) -> Result<(), Fail> {
    let name = Name::read(OUTPUT).ok_or("a name")?;
    let Kind::Thunk = name.kind() else {
        return Err(Fail::from("the name is of no thunk"));
    };
    let text = write_placeholder(rt.alloc(), &name, 7)?;
    assert_eq!(rt; text.as_slice(), PLACEHOLDER);
    Ok(())
}
