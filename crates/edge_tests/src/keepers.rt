//! Keepers in a folder.

use crate::folders::{PROCESS, path_of_abc, test_folder};
use crate::stopping::{Calls, Stopping};
use blob_store::{FolderKeeper, Keeper, fetch, store};
use object_name::name_of;
use std::fs;
use std::test::Fail;

/// Whether `abc` is held, or nothing stands under its name.
fn is_held(rt: &HostRuntime, root: &str, held: bool) -> Result<bool, Fail> {
    let mut keeper = FolderKeeper::new(rt.alloc(), rt, root, PROCESS)?;
    match keeper.get(rt.alloc(), &name_of(b"abc")?)? {
        Some(bytes) => Ok(held && bytes.as_slice() == b"abc".as_slice()),
        None => Ok(!held),
    }
}

#[test]
fn a_folder_keeps_objects_and_notes(rt: HostRuntime) -> Result<(), Fail> {
    let alloc = rt.alloc();
    let root = test_folder(&rt, "keeps")?;
    let root = root.as_str();
    let mut keeper = FolderKeeper::new(alloc, &rt, root, PROCESS)?;
    let name = store(alloc, &mut keeper, b"abc", 0)?;
    assert!(rt; keeper.get_note(alloc, &name)?.is_none());
    keeper.put_note(&name, b"a note")?;
    let note = keeper.get_note(alloc, &name)?.ok_or("a note")?;
    assert!(rt; note.as_slice() == b"a note".as_slice());
    let object = fetch(alloc, &mut keeper, &name, 0)?.ok_or("an object")?;
    assert!(rt; object.as_slice() == b"abc".as_slice());
    let path = path_of_abc(alloc, root)?;
    assert!(rt; fs::read(&rt, path.as_str())?.as_slice() == b"abc".as_slice());
    assert!(rt; keeper.faults() == 0);
    fs::remove_dir_all(&rt, root)?;
    Ok(())
}

#[test]
fn a_folder_in_the_place_of_an_object_is_none(rt: HostRuntime) -> Result<(), Fail> {
    let alloc = rt.alloc();
    let root = test_folder(&rt, "folder-for-an-object")?;
    let root = root.as_str();
    let path = path_of_abc(alloc, root)?;
    fs::create_dir_all(&rt, path.as_str())?;
    assert!(rt; is_held(&rt, root, false)?);
    let mut keeper = FolderKeeper::new(alloc, &rt, root, PROCESS)?;
    assert!(rt; store(alloc, &mut keeper, b"abc", 0).is_err());
    assert!(rt; keeper.faults() == 1);
    fs::remove_dir(&rt, path.as_str())?;
    let objects = format!(in alloc; "{root}/objects")?;
    fs::remove_dir(&rt, objects.as_str())?;
    fs::remove_dir(&rt, root)?;
    Ok(())
}

/// Stores `abc` with the call on files of this number failing, and says whether it was stored, and whether a fault was counted.
fn store_stopping(rt: &HostRuntime, root: &str, number: u64) -> Result<(bool, bool), Fail> {
    let calls = Calls::failing(number, number);
    let files = Stopping {
        system: rt,
        calls: &calls,
    };
    let mut keeper = FolderKeeper::new(rt.alloc(), files, root, PROCESS)?;
    let stored = store(rt.alloc(), &mut keeper, b"abc", 0).is_ok();
    Ok((stored, keeper.faults() > 0))
}

#[test]
fn a_store_that_stops_leaves_the_object_whole_or_absent(rt: HostRuntime) -> Result<(), Fail> {
    let root = test_folder(&rt, "store-stops")?;
    let root = root.as_str();
    for number in 1..64 {
        let (stored, fault) = store_stopping(&rt, root, number)?;
        assert!(rt; fault != stored, "call {number}");
        assert!(rt; stored || number < 63);
        assert!(rt; is_held(&rt, root, stored)?, "call {number}");
        let _ = fs::remove_dir_all(&rt, root);
    }
    Ok(())
}
