//! Wanted items.

ghost use Rattle.std.specs.Prelude.{◌≡◌, IfOk};
ghost use Rattle.file_tree.specs.Wanted.{full_text, item_text, repeated_item};
ghost use Rattle.thunk_codec.specs.Reference.{ref_text};

use object_name::Bytes;
use std::alloc::{AllocError, Global};
use std::collections::HashSet;
use thunk_codec::{Path, Ref};

/// What is wanted: the output that the file at a path stands for, or a reference itself.
#[derive(Debug, PartialEq, Eq, Drop)]
pub enum Item {
    File(Path),
    Bare(Ref),
}

/// How an item is spelled.
fn text_of(alloc: Global, item: &Item) -> Result<Bytes, AllocError>
    ensures { IfOk result (λ text. text ≡ item_text item.now) }
{
    match item {
        Item::File(path) => Bytes::from_slice(alloc, path.text()),
        Item::Bare(reference) => spelled(alloc, reference),
    }
}

/// How a reference is spelled.
fn spelled(alloc: Global, reference: &Ref) -> Result<Bytes, AllocError>
    ensures { IfOk result (λ text. text ≡ ref_text reference.now) }
{
    let mut text = Bytes::new(alloc);
    reference.write(&mut text)?;
    Ok(text)
}

/// How an item is spelled so that no file is taken for a reference: a file after `./`.
fn full_text(alloc: Global, item: &Item) -> Result<Bytes, AllocError>
    ensures { IfOk result (λ text. text ≡ full_text item.now) }
{
    match item {
        Item::File(path) => {
            let mut text = Bytes::from_slice(alloc, b"./")?;
            text.append(path.text())?;
            Ok(text)
        }
        Item::Bare(reference) => spelled(alloc, reference),
    }
}

/// The text of the first of some items that repeats one before it.
pub fn find_repeated(alloc: Global, items: &[Item]) -> Result<Option<Bytes>, AllocError>
    ensures { IfOk result (λ found. found ≡ repeated_item items.now) }
{
    let mut seen = HashSet::new(alloc);
    'items: for item in items {
        let full = full_text(alloc, item)?;
        if seen.contains(&full) {
            return Ok(Some(text_of(alloc, item)?));
        }
        seen.insert(full)?;
    }
    Ok(None)
}
