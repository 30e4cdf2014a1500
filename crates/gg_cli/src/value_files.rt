//! Values that go to the files that wanted them.

ghost use Rattle.std.specs.Prelude.{◌≡◌, ◌≤◌, ◌∷◌, [], ℕ, IsSome};
ghost use Rattle.blob_store.specs.Store.{held};
ghost use Rattle.file_tree.specs.Files.{filed_in};
ghost use Rattle.object_name.specs.Causes.{TriesAtMost};
ghost use Rattle.file_tree.specs.declared.change.Change.TheVariants.{Written};
ghost use Rattle.need_eval.specs.MetObjects.{AreHeld};
ghost use Rattle.gg_cli.specs.ValueFiles.{value_bytes, item_filed, filed};
ghost use Rattle.gg_cli.specs.StepContracts.{FilesValues, FilingCause, answered, file_faults_filing, kept_faults_filing};

use crate::fault::FilingFault;
use blob_store::{Keeper, fetch};
use file_tree::{Item, Tree, write_again};
use object_name::{Name, Trouble};
use std::alloc::Global;
use thunk_codec::Path;

/// Writes some bytes to the file at a path.
fn write_bytes<T: Tree>(
    tree: &mut T,
    path: &Path,
    bytes: &[u8],
    retries: u32,
) -> Result<(), FilingFault>
    ensures filed { T.tells → FilesValues (Written path.now bytes.now ∷ []) (filed_in T.files T.changes tree.old) (filed_in T.files T.changes tree.new) result }
    ensures later { T.faults tree.old ≤ T.faults tree.new }
    ensures cause { (kept : ℕ) → FilingCause retries kept kept (T.faults tree.old) (T.faults tree.new) result }
    ensures file_tries { T.tells → TriesAtMost retries T.calls T.faults tree.old tree.new (answered file_faults_filing result) }
{
    match write_again(tree, path, bytes, retries) {
        Ok(()) => Ok(()),
        Err(Trouble::Failed) => Err(FilingFault::FileFailed),
        Err(Trouble::Memory) => Err(FilingFault::Memory),
    }
}

/// Writes a value to the file at a path.
fn write_value<K: Keeper, T: Tree>(
    alloc: Global,
    keeper: &mut K,
    tree: &mut T,
    name: &Name,
    path: &Path,
    retries: u32,
) -> Result<(), FilingFault>
    requires { K.tells → IsSome (held (K.store keeper.old).objects name.now) }
    ensures filed { K.tells → T.tells → FilesValues (Written path.now (value_bytes (K.store keeper.old).objects name.now) ∷ []) (filed_in T.files T.changes tree.old) (filed_in T.files T.changes tree.new) result }
    ensures same { K.tells → K.store keeper.new ≡ K.store keeper.old }
    ensures list { K.tells → K.writes keeper.new ≡ K.writes keeper.old }
    ensures kept_later { K.faults keeper.old ≤ K.faults keeper.new }
    ensures files_later { T.faults tree.old ≤ T.faults tree.new }
    ensures cause { FilingCause retries (K.faults keeper.old) (K.faults keeper.new) (T.faults tree.old) (T.faults tree.new) result }
    ensures kept_tries { K.tells → TriesAtMost retries K.calls K.faults keeper.old keeper.new (answered kept_faults_filing result) }
    ensures file_tries { T.tells → TriesAtMost retries T.calls T.faults tree.old tree.new (answered file_faults_filing result) }
{
    match fetch(alloc, keeper, name, retries) {
        Ok(Some(bytes)) => write_bytes(tree, path, bytes.as_slice(), retries),
        Ok(None) => Err(FilingFault::Missing(*name)),
        Err(Trouble::Failed) => Err(FilingFault::StoreFailed),
        Err(Trouble::Memory) => Err(FilingFault::Memory),
    }
}

/// Writes the value of an item to its file, if it has one.
fn write_item<K: Keeper, T: Tree>(
    alloc: Global,
    keeper: &mut K,
    tree: &mut T,
    name: &Name,
    item: &Item,
    retries: u32,
) -> Result<(), FilingFault>
    requires { K.tells → IsSome (held (K.store keeper.old).objects name.now) }
    ensures filed { K.tells → T.tells → FilesValues (item_filed (K.store keeper.old).objects name.now item.now) (filed_in T.files T.changes tree.old) (filed_in T.files T.changes tree.new) result }
    ensures same { K.tells → K.store keeper.new ≡ K.store keeper.old }
    ensures list { K.tells → K.writes keeper.new ≡ K.writes keeper.old }
    ensures kept_later { K.faults keeper.old ≤ K.faults keeper.new }
    ensures files_later { T.faults tree.old ≤ T.faults tree.new }
    ensures cause { FilingCause retries (K.faults keeper.old) (K.faults keeper.new) (T.faults tree.old) (T.faults tree.new) result }
    ensures kept_tries { K.tells → TriesAtMost retries K.calls K.faults keeper.old keeper.new (answered kept_faults_filing result) }
    ensures file_tries { T.tells → TriesAtMost retries T.calls T.faults tree.old tree.new (answered file_faults_filing result) }
{
    match item {
        Item::Bare(_) => Ok(()),
        Item::File(path) => write_value(alloc, keeper, tree, name, path, retries),
    }
}

/// Writes the values of the items that are files, in order. A failed call of the keeper or the tree is tried again, `retries`
/// times at most.
pub(crate) fn write_files<K: Keeper, T: Tree>(
    alloc: Global,
    keeper: &mut K,
    tree: &mut T,
    names: &[Name],
    items: &[Item],
    retries: u32,
) -> Result<(), FilingFault>
    requires { K.tells → AreHeld (K.store keeper.old) names.now }
    ensures filed { K.tells → T.tells → FilesValues (filed (K.store keeper.old).objects names.now items.now) (filed_in T.files T.changes tree.old) (filed_in T.files T.changes tree.new) result }
    ensures same { K.tells → K.store keeper.new ≡ K.store keeper.old }
    ensures list { K.tells → K.writes keeper.new ≡ K.writes keeper.old }
    ensures kept_later { K.faults keeper.old ≤ K.faults keeper.new }
    ensures files_later { T.faults tree.old ≤ T.faults tree.new }
    ensures cause { FilingCause retries (K.faults keeper.old) (K.faults keeper.new) (T.faults tree.old) (T.faults tree.new) result }
    ensures kept_tries { K.tells → TriesAtMost retries K.calls K.faults keeper.old keeper.new (answered kept_faults_filing result) }
    ensures file_tries { T.tells → TriesAtMost retries T.calls T.faults tree.old tree.new (answered file_faults_filing result) }
{
    'values: for (name, item) in names.iter().zip(items) {
        write_item(alloc, keeper, tree, name, item, retries)?;
    }
    Ok(())
}
