//! The references that are wanted.

ghost use Rattle.std.specs.Prelude.{◌≡◌, ◌≢◌, ◌≤◌, All, None, IfOk, IfErr, IfSome};
ghost use Rattle.thunk_codec.specs.Reference.{IsRef};
ghost use Rattle.file_tree.specs.Files.{file_read};
ghost use Rattle.file_tree.specs.Wanted.{IsItem, ref_of_item, ref_of_read, refs_of, repeated_item, wanted_of};
ghost use Rattle.object_name.specs.Causes.{TriesAtMost};
ghost use Rattle.file_tree.specs.WantAnswers.{want_failures};
ghost use Rattle.file_tree.specs.WantAnswers.{Answers, NeverTwice, RefusesTwice, WantCause};

use crate::item::{Item, find_repeated};
use crate::refusal::{FileRefusal, WantFault};
use crate::retries::read_again;
use crate::tree::{FileRead, Tree};
use object_name::{Many, TryCopy};
use std::alloc::Global;
use thunk_codec::{Path, Ref, read_placeholder};

/// The references of some items: a reference itself, and of a file that of its placeholder. An item that is spelled as one
/// before it is refused before any file is read. A failed call of the tree is tried again, `retries` times at most.
pub fn wanted<T: Tree>(
    alloc: Global,
    tree: &mut T,
    items: &[Item],
    retries: u32,
) -> Result<Many<Ref>, WantFault>
    requires { All IsItem items.now }
    ensures exact { T.tells → Answers (wanted_of (T.files tree.old) items.now) result }
    ensures twice { IfSome (repeated_item items.now) (λ text. RefusesTwice text result × (tree.new ≡ tree.old)) }
    ensures only { repeated_item items.now ≡ None → NeverTwice result }
    ensures refs { IfOk result (All IsRef) }
    ensures same { T.tells → T.files tree.new ≡ T.files tree.old }
    ensures list { T.tells → T.changes tree.new ≡ T.changes tree.old }
    ensures later { T.faults tree.old ≤ T.faults tree.new }
    ensures cause { WantCause retries (T.faults tree.old) (T.faults tree.new) result }
    ensures tries { T.tells → TriesAtMost retries T.calls T.faults tree.old tree.new (want_failures result) }
{
    match find_repeated(alloc, items)? {
        Some(text) => Err(WantFault::Refused(FileRefusal::Twice(text))),
        None => refs_of(alloc, tree, items, retries),
    }
}

/// The references of some items that are all spelled differently.
fn refs_of<T: Tree>(
    alloc: Global,
    tree: &mut T,
    items: &[Item],
    retries: u32,
) -> Result<Many<Ref>, WantFault>
    requires { All IsItem items.now }
    ensures exact { T.tells → Answers (refs_of (T.files tree.old) items.now) result }
    ensures other { NeverTwice result }
    ensures refs { IfOk result (All IsRef) }
    ensures same { T.tells → T.files tree.new ≡ T.files tree.old }
    ensures list { T.tells → T.changes tree.new ≡ T.changes tree.old }
    ensures later { T.faults tree.old ≤ T.faults tree.new }
    ensures cause { WantCause retries (T.faults tree.old) (T.faults tree.new) result }
    ensures tries { T.tells → TriesAtMost retries T.calls T.faults tree.old tree.new (want_failures result) }
{
    let mut refs = Many::new(alloc);
    'items: for item in items {
        let reference = ref_of_item(alloc, tree, item, retries)?;
        refs.push(reference)?;
    }
    Ok(refs)
}

/// The reference of an item: a reference itself, and of a file that of its placeholder. A failed call of the tree is tried again,
/// `retries` times at most.
pub fn ref_of_item<T: Tree>(
    alloc: Global,
    tree: &mut T,
    item: &Item,
    retries: u32,
) -> Result<Ref, WantFault>
    requires { IsItem item.now }
    ensures exact { T.tells → Answers (ref_of_item (T.files tree.old) item.now) result }
    ensures other { NeverTwice result }
    ensures refs { IfOk result IsRef }
    ensures same { T.tells → T.files tree.new ≡ T.files tree.old }
    ensures list { T.tells → T.changes tree.new ≡ T.changes tree.old }
    ensures later { T.faults tree.old ≤ T.faults tree.new }
    ensures cause { WantCause retries (T.faults tree.old) (T.faults tree.new) result }
    ensures tries { T.tells → TriesAtMost retries T.calls T.faults tree.old tree.new (want_failures result) }
{
    match item {
        Item::Bare(reference) => Ok(*reference),
        Item::File(path) => ref_of_file(alloc, tree, path, retries),
    }
}

/// The reference that the file at a path stands for.
fn ref_of_file<T: Tree>(
    alloc: Global,
    tree: &mut T,
    path: &Path,
    retries: u32,
) -> Result<Ref, WantFault>
    ensures exact { T.tells → Answers (ref_of_read path.now (file_read (T.files tree.old path.now))) result }
    ensures other { NeverTwice result }
    ensures refs { IfOk result IsRef }
    ensures same { T.tells → T.files tree.new ≡ T.files tree.old }
    ensures list { T.tells → T.changes tree.new ≡ T.changes tree.old }
    ensures later { T.faults tree.old ≤ T.faults tree.new }
    ensures cause { WantCause retries (T.faults tree.old) (T.faults tree.new) result }
    ensures tries { T.tells → TriesAtMost retries T.calls T.faults tree.old tree.new (want_failures result) }
{
    let read = read_again(alloc, tree, path, retries)?;
    ref_of_read(alloc, path, &read)
}

/// The reference that a file stands for, by what was read.
fn ref_of_read(alloc: Global, path: &Path, read: &FileRead) -> Result<Ref, WantFault>
    ensures exact { Answers (ref_of_read path.now read.now) result }
    ensures other { NeverTwice result }
    ensures refs { IfOk result IsRef }
    ensures cause { IfErr result (λ fault. fault ≢ WantFault.Failed) }
{
    let bytes = match read {
        FileRead::Absent => return Err(WantFault::Refused(FileRefusal::NoFile(path.copy(alloc)?))),
        FileRead::TooLong => return Err(WantFault::Refused(FileRefusal::TooLong(path.copy(
            alloc,
        )?))),
        FileRead::Bytes(bytes) => bytes,
    };
    match read_placeholder(bytes.as_slice()) {
        Some((name, index)) => Ok(Ref::Out(name, index)),
        None => Err(WantFault::Refused(FileRefusal::NotPlaceholder(path.copy(alloc)?))),
    }
}
