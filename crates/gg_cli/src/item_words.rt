//! Items, by their words.

ghost use Rattle.std.specs.Prelude.{◌≡◌, All, Some, map, string_bytes, IfOk};
ghost use Rattle.file_tree.specs.Wanted.{IsItem};
ghost use Rattle.gg_cli.specs.ItemWords.{is_value, item_of, items_in, output_item_of};
ghost use Rattle.gg_cli.specs.Reading.{Finds};

use crate::word_fault::WordFault;
use file_tree::Item;
use object_name::Many;
use std::alloc::Global;
use thunk_codec::{Path, Ref};

/// The item that a word is.
pub(crate) fn read_item(alloc: Global, word: &[u8]) -> Result<Item, WordFault>
    ensures exact { Finds result (item_of word.now) }
    ensures rules { IfOk result (λ item. IsItem item) }
{
    if word.starts_with(b"-") {
        return Err(WordFault::Usage);
    }
    if let Some(reference) = Ref::read(word) {
        return Ok(Item::Bare(reference));
    }
    match Path::read(alloc, word)? {
        Some(path) => Ok(Item::File(path)),
        None => Err(WordFault::Usage),
    }
}

/// The items that some words are, where each is one.
pub(crate) fn read_each(alloc: Global, words: &[String]) -> Result<Many<Item>, WordFault>
    ensures exact { Finds result (items_in (map string_bytes words.now)) }
    ensures rules { IfOk result (λ items. All IsItem items) }
{
    let mut items = Many::new(alloc);
    'words: for word in words {
        let item = read_item(alloc, word.as_bytes())?;
        items.push(item)?;
    }
    Ok(items)
}

/// Whether an item is the name of a value.
fn is_value(item: &Item) -> bool
    ensures { result ≡ is_value item.now }
{
    match item {
        Item::File(_) => false,
        Item::Bare(Ref::Value(_)) => true,
        Item::Bare(Ref::Out(_, _)) => false,
    }
}

/// The item that a word is, which is no value.
pub(crate) fn read_output(alloc: Global, word: &[u8]) -> Result<Item, WordFault>
    ensures exact { Finds result (output_item_of word.now) }
    ensures rules { IfOk result (λ item. IsItem item) }
{
    let item = read_item(alloc, word)?;
    if is_value(&item) {
        return Err(WordFault::Usage);
    }
    Ok(item)
}
