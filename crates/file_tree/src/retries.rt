//! Calls of a tree that are tried again.

ghost use Rattle.std.specs.Prelude.{◌≡◌, ◌∷◌, ◌++◌, [], IfOk, OnOk, OnErr};
ghost use Rattle.object_name.specs.Causes.{HasCauseBy, faults_of};
ghost use Rattle.file_tree.specs.Files.{MayChange, IsShort, after_change, file_read};
ghost use Rattle.object_name.specs.Causes.{TriesAtMost};
ghost use Rattle.file_tree.specs.declared.change.Change.TheVariants.{Written, Removed};

use crate::tree::{FileRead, Tree};
use object_name::{Trouble, try_again};
use std::alloc::Global;
use thunk_codec::Path;

/// What stands at a path, by the first of `retries` + 1 calls that doesn't fail.
pub fn read_again<T: Tree>(
    alloc: Global,
    tree: &mut T,
    path: &Path,
    retries: u32,
) -> Result<FileRead, Trouble>
    ensures found { T.tells → IfOk result (λ read. read ≡ file_read (T.files tree.old path.now)) }
    ensures short { IfOk result IsShort }
    ensures same { T.tells → T.files tree.new ≡ T.files tree.old }
    ensures list { T.tells → T.changes tree.new ≡ T.changes tree.old }
    ensures cause { HasCauseBy retries (T.faults tree.old) (T.faults tree.new) result }
    ensures tries { T.tells → TriesAtMost retries T.calls T.faults tree.old tree.new (faults_of result) }
{
    try_again!(tried in retries, tree.read(alloc, path))
}

/// Writes a file by the first of `retries` + 1 calls that doesn't fail. A failed write may have been made.
pub fn write_again<T: Tree>(
    tree: &mut T,
    path: &Path,
    bytes: &[u8],
    retries: u32,
) -> Result<(), Trouble>
    ensures made { T.tells → OnOk result (T.files tree.new ≡ after_change (T.files tree.old) (Written path.now bytes.now)) }
    ensures kept { T.tells → OnErr result (MayChange (T.files tree.old) (Written path.now bytes.now) (T.files tree.new)) }
    ensures listed { T.tells → OnOk result (T.changes tree.new ≡ T.changes tree.old ++ Written path.now bytes.now ∷ []) }
    ensures unlisted { T.tells → OnErr result (T.changes tree.new ≡ T.changes tree.old) }
    ensures cause { HasCauseBy retries (T.faults tree.old) (T.faults tree.new) result }
    ensures tries { T.tells → TriesAtMost retries T.calls T.faults tree.old tree.new (faults_of result) }
{
    try_again!(tried in retries, tree.write(path, bytes))
}

/// Removes a file, if there is one, by the first of `retries` + 1 calls that doesn't fail. A failed removal may have been made.
pub fn remove_again<T: Tree>(tree: &mut T, path: &Path, retries: u32) -> Result<(), Trouble>
    ensures made { T.tells → OnOk result (T.files tree.new ≡ after_change (T.files tree.old) (Removed path.now)) }
    ensures kept { T.tells → OnErr result (MayChange (T.files tree.old) (Removed path.now) (T.files tree.new)) }
    ensures listed { T.tells → OnOk result (T.changes tree.new ≡ T.changes tree.old ++ Removed path.now ∷ []) }
    ensures unlisted { T.tells → OnErr result (T.changes tree.new ≡ T.changes tree.old) }
    ensures cause { HasCauseBy retries (T.faults tree.old) (T.faults tree.new) result }
    ensures tries { T.tells → TriesAtMost retries T.calls T.faults tree.old tree.new (faults_of result) }
{
    try_again!(tried in retries, tree.remove(path))
}
