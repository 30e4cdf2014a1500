//! Paths and environments in byte order, and cards.

use object_name::{Bytes, Many};
use std::alloc::Global;
use std::test::Fail;
use thunk_codec::{Path, card, sort_envs, sort_paths};

/// The path of a text.
fn path(alloc: Global, text: &[u8]) -> Result<Path, Fail> {
    Ok(Path::read(alloc, text)?.ok_or("a path")?)
}

/// A key and its value.
fn pair(alloc: Global, key: &[u8], value: &[u8]) -> Result<(Bytes, Bytes), Fail> {
    Ok((
        Bytes::from_slice(alloc, key)?,
        Bytes::from_slice(alloc, value)?,
    ))
}

#[test]
fn paths_stand_in_byte_order(rt: HostRuntime) -> Result<(), Fail> {
    let alloc = rt.alloc();
    let mut paths = Many::new(alloc);
    paths.push(path(alloc, b"b")?)?;
    paths.push(path(alloc, b"a/b")?)?;
    paths.push(path(alloc, b"a")?)?;
    let mut texts = Bytes::new(alloc);
    for path in sort_paths(paths)?.as_slice() {
        texts.append(path.text())?;
        texts.append(b" ")?;
    }
    assert_eq!(rt; texts.as_slice(), b"a a/b b ".as_slice());
    Ok(())
}

#[test]
fn equal_keys_stay_in_their_order(rt: HostRuntime) -> Result<(), Fail> {
    let alloc = rt.alloc();
    let mut envs = Many::new(alloc);
    envs.push(pair(alloc, b"B", b"1")?)?;
    envs.push(pair(alloc, b"A", b"2")?)?;
    envs.push(pair(alloc, b"A", b"1")?)?;
    let mut texts = Bytes::new(alloc);
    for (key, value) in sort_envs(envs)?.as_slice() {
        texts.append(key.as_slice())?;
        texts.append(value.as_slice())?;
    }
    assert_eq!(rt; texts.as_slice(), b"A2A1B1".as_slice());
    Ok(())
}

#[test]
fn a_card_is_written(rt: HostRuntime) -> Result<(), Fail> {
    let card = card(rt.alloc(), b"cat")?;
    assert_eq!(rt; card.as_slice(), b"gg-tool cat\n".as_slice());
    Ok(())
}
