//! Trees in a folder.

use crate::folders::{PROCESS, path, test_folder};
use crate::stopping::{Calls, Stopping};
use file_tree::{Change, FileRead, FolderTree, MemTree, Tree};
use object_name::{Bytes, MAX_SIZE, Many};
use std::fs;
use std::fs::{File, Permissions};
use std::os::unix::fs::PermissionsExt;
use std::test::Fail;

/// What stands at a path.
fn read(rt: &HostRuntime, root: &str, text: &[u8]) -> Result<FileRead, Fail> {
    let mut tree = FolderTree::new(rt.alloc(), rt, root, PROCESS)?;
    Ok(tree.read(rt.alloc(), &path(rt.alloc(), text)?)?)
}

/// Whether these bytes stand at a path, or nothing does.
fn holds(rt: &HostRuntime, root: &str, text: &[u8], wanted: Option<&[u8]>) -> Result<bool, Fail> {
    match read(rt, root, text)? {
        FileRead::Bytes(bytes) => Ok(wanted == Some(bytes.as_slice())),
        FileRead::Absent => Ok(wanted.is_none()),
        FileRead::TooLong => Ok(false),
    }
}

/// Writes a file, and says whether it was written, and how often the tree failed.
fn write(rt: &HostRuntime, root: &str, text: &[u8], bytes: &[u8]) -> Result<(bool, u64), Fail> {
    let mut tree = FolderTree::new(rt.alloc(), rt, root, PROCESS)?;
    let written = tree.write(&path(rt.alloc(), text)?, bytes).is_ok();
    Ok((written, tree.faults()))
}

/// Whether a file was removed, or was absent.
fn remove(rt: &HostRuntime, root: &str, text: &[u8]) -> Result<bool, Fail> {
    let mut tree = FolderTree::new(rt.alloc(), rt, root, PROCESS)?;
    Ok(tree.remove(&path(rt.alloc(), text)?).is_ok())
}

#[test]
fn a_folder_has_files(rt: HostRuntime) -> Result<(), Fail> {
    let root = test_folder(&rt, "files")?;
    let root = root.as_str();
    assert!(rt; holds(&rt, root, b"a/b", None)?);
    assert!(rt; write(&rt, root, b"a/b", b"abc")? == (true, 0));
    assert!(rt; holds(&rt, root, b"a/b", Some(b"abc"))?);
    assert!(rt; remove(&rt, root, b"a/b")?);
    assert!(rt; remove(&rt, root, b"a/b")?);
    assert!(rt; holds(&rt, root, b"a/b", None)?);
    fs::remove_dir_all(&rt, root)?;
    Ok(())
}

/// A component of 255 bytes, and one of 256.
const LONG: &[u8] = &[b'n'; 255];

const TOO_LONG: &[u8] = &[b'n'; 256];

#[test]
fn what_is_no_plain_file_is_absent(rt: HostRuntime) -> Result<(), Fail> {
    let root = test_folder(&rt, "absent")?;
    let root = root.as_str();
    assert!(rt; write(&rt, root, b"a/b", b"abc")? == (true, 0));
    assert!(rt; write(&rt, root, LONG, b"abc")? == (true, 0));
    for text in [b"a".as_slice(), b"a/b/c", TOO_LONG] {
        assert!(rt; holds(&rt, root, text, None)?);
        assert!(rt; write(&rt, root, text, b"abc")? == (false, 1));
        assert!(rt; remove(&rt, root, text)?);
    }
    assert!(rt; holds(&rt, root, b"a/b", Some(b"abc"))?);
    fs::remove_dir_all(&rt, root)?;
    Ok(())
}

#[test]
fn the_store_is_no_part_of_a_tree(rt: HostRuntime) -> Result<(), Fail> {
    let root = test_folder(&rt, "store")?;
    let root = root.as_str();
    let store = format!(in rt.alloc(); "{root}/.gg")?;
    fs::create_dir_all(&rt, store.as_str())?;
    let object = format!(in rt.alloc(); "{root}/.gg/a")?;
    fs::write(&rt, object.as_str(), b"abc".as_slice())?;
    assert!(rt; holds(&rt, root, b".gg/a", None)?);
    assert!(rt; write(&rt, root, b".gg/a", b"")? == (false, 1));
    assert!(rt; !remove(&rt, root, b".gg/a")?);
    assert!(rt; fs::read(&rt, object.as_str())?.as_slice() == b"abc".as_slice());
    fs::remove_dir_all(&rt, root)?;
    Ok(())
}

#[test]
fn a_file_keeps_its_permissions(rt: HostRuntime) -> Result<(), Fail> {
    let root = test_folder(&rt, "permissions")?;
    let root = root.as_str();
    assert!(rt; write(&rt, root, b"a", b"before")? == (true, 0));
    let file = format!(in rt.alloc(); "{root}/a")?;
    fs::set_permissions(&rt, file.as_str(), Permissions::from_mode(0o751))?;
    assert!(rt; write(&rt, root, b"a", b"abc")? == (true, 0));
    assert!(rt; fs::metadata(&rt, file.as_str())?.permissions().mode() & 0o777 == 0o751);
    fs::remove_dir_all(&rt, root)?;
    Ok(())
}

#[test]
fn a_name_that_is_taken_is_left(rt: HostRuntime) -> Result<(), Fail> {
    let root = test_folder(&rt, "taken")?;
    let root = root.as_str();
    fs::create_dir(&rt, root)?;
    let taken = format!(in rt.alloc(); "{root}/·{PROCESS}.0")?;
    fs::write(&rt, taken.as_str(), b"taken".as_slice())?;
    assert!(rt; write(&rt, root, b"a", b"abc")? == (true, 0));
    assert!(rt; holds(&rt, root, b"a", Some(b"abc"))?);
    assert!(rt; fs::read(&rt, taken.as_str())?.as_slice() == b"taken".as_slice());
    fs::remove_dir_all(&rt, root)?;
    Ok(())
}

#[test]
fn a_file_over_the_limit_is_too_long(rt: HostRuntime) -> Result<(), Fail> {
    let root = test_folder(&rt, "too-long")?;
    let root = root.as_str();
    assert!(rt; write(&rt, root, b"a", b"abc")? == (true, 0));
    let name = format!(in rt.alloc(); "{root}/a")?;
    File::create(&rt, name.as_str())?.set_len(u64::from(MAX_SIZE) + 1)?;
    assert!(rt; matches!(read(&rt, root, b"a")?, FileRead::TooLong));
    fs::remove_dir_all(&rt, root)?;
    Ok(())
}

/// Reads, writes or removes a file.
#[derive(Clone, Copy)]
enum Call {
    Read,
    Write,
    Remove,
}

/// Does a call at `a/b`, writing `abc`, with the calls on files from `first` to `last` failing. Says whether it was done, and whether
/// a fault was counted.
fn call_stopping(
    rt: &HostRuntime,
    root: &str,
    call: Call,
    first: u64,
    last: u64,
) -> Result<(bool, bool), Fail> {
    let calls = Calls::failing(first, last);
    let files = Stopping {
        system: rt,
        calls: &calls,
    };
    let mut tree = FolderTree::new(rt.alloc(), files, root, PROCESS)?;
    let file = path(rt.alloc(), b"a/b")?;
    let done = match call {
        Call::Read => tree.read(rt.alloc(), &file).is_ok(),
        Call::Write => tree.write(&file, b"abc").is_ok(),
        Call::Remove => tree.remove(&file).is_ok(),
    };
    Ok((done, tree.faults() > 0))
}

/// Whether nothing but the file `b` stands in the folder `a`. Takes both away.
fn is_alone(rt: &HostRuntime, root: &str) -> Result<bool, Fail> {
    let removed = remove(rt, root, b"a/b")?;
    let folder = format!(in rt.alloc(); "{root}/a")?;
    let _ = fs::remove_dir(rt, folder.as_str());
    Ok(removed && !fs::exists(rt, folder.as_str())?)
}

#[test]
fn a_write_that_stops_leaves_what_was_there(rt: HostRuntime) -> Result<(), Fail> {
    let root = test_folder(&rt, "write-stops")?;
    let root = root.as_str();
    for before in [None, Some(b"before".as_slice())] {
        for first in 1..64 {
            for last in [first, u64::MAX] {
                if let Some(bytes) = before {
                    assert!(rt; write(&rt, root, b"a/b", bytes)? == (true, 0));
                }
                let (done, fault) = call_stopping(&rt, root, Call::Write, first, last)?;
                assert!(rt; fault != done, "call {first}");
                assert!(rt; done || first < 63);
                let wanted = if done {
                    Some(b"abc".as_slice())
                } else {
                    before
                };
                assert!(rt; holds(&rt, root, b"a/b", wanted)?, "call {first}");
                // Where all calls fail from there on, the file beside can't be taken away.
                assert!(rt; last > first || is_alone(&rt, root)?, "call {first}");
                let _ = fs::remove_dir_all(&rt, root);
            }
        }
    }
    Ok(())
}

#[test]
fn a_read_or_a_removal_that_stops_is_a_fault(rt: HostRuntime) -> Result<(), Fail> {
    let root = test_folder(&rt, "stops")?;
    let root = root.as_str();
    assert!(rt; write(&rt, root, b"a/b", b"abc")? == (true, 0));
    // A file is looked at, opened, and read until it ends.
    for number in 1..5 {
        assert!(rt; call_stopping(&rt, root, Call::Read, number, number)? == (false, true));
    }
    assert!(rt; call_stopping(&rt, root, Call::Read, 5, 5)? == (true, false));
    assert!(rt; call_stopping(&rt, root, Call::Remove, 1, 1)? == (false, true));
    assert!(rt; holds(&rt, root, b"a/b", Some(b"abc"))?);
    assert!(rt; call_stopping(&rt, root, Call::Remove, 2, 2)? == (true, false));
    assert!(rt; is_alone(&rt, root)?);
    fs::remove_dir(&rt, root)?;
    Ok(())
}

#[test]
fn a_tree_in_memory_records_its_changes(rt: HostRuntime) -> Result<(), Fail> {
    let mut tree = MemTree::new(rt.alloc(), Many::new(rt.alloc()), Many::new(rt.alloc()))?;
    let at = path(rt.alloc(), b"a/b")?;
    tree.write(&at, b"abc")?;
    tree.remove(&at)?;
    let written = Change::Written(
        path(rt.alloc(), b"a/b")?,
        Bytes::from_slice(rt.alloc(), b"abc")?,
    );
    assert!(rt; tree.changes().first() == Some(&written));
    assert!(rt; tree.changes().len() == 2);
    Ok(())
}
