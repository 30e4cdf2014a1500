//! What has files by their paths.

ghost use Rattle.std.specs.Prelude.{◌≡◌, ◌∷◌, ◌++◌, [], ℕ, List, IfOk, OnOk, OnErr};
ghost use Rattle.object_name.specs.Causes.{HasCause};
ghost use Rattle.object_name.specs.Calls.{risen};
ghost use Rattle.file_tree.specs.Files.{Files, MayChange, IsShort, after_change, file_read};
ghost use Rattle.file_tree.specs.declared.change.Change.{Change};
ghost use Rattle.file_tree.specs.declared.change.Change.TheVariants.{Written, Removed};

use object_name::{Bytes, Trouble};
use std::alloc::Global;
use thunk_codec::Path;

/// What stands at a path.
#[derive(Debug, Drop)]
pub enum FileRead {
    /// There is no file.
    Absent,
    /// The bytes of the file.
    Bytes(Bytes),
    /// The file has more bytes than an object may have.
    TooLong,
}

/// What has files by their paths.
pub trait Tree {
    /// Whether the files are told.
    ghost tells: { Type 0 };

    /// The files.
    ghost files: { Self → Files };

    /// The changes that were answered `Ok`, the first of them first. One that failed may have been made, and is not among them.
    ghost changes: { Self → List Change };

    /// How often a call has failed.
    ghost faults: { Self → ℕ };

    /// How often a call was made.
    ghost calls: { Self → ℕ };

    /// What stands at a path.
    fn read(&mut self, alloc: Global, path: &Path) -> Result<FileRead, Trouble>
        ensures found { tells → IfOk result (λ read. read ≡ file_read (files self.old path.now)) }
        ensures short { IfOk result IsShort }
        ensures same { tells → files self.new ≡ files self.old }
        ensures list { tells → changes self.new ≡ changes self.old }
        ensures cause { HasCause (faults self.old) (faults self.new) result }
        ensures one { tells → calls self.new ≡ risen (calls self.old) };

    /// Writes a file, in place of what was there. A failed write may have been made.
    fn write(&mut self, path: &Path, bytes: &[u8]) -> Result<(), Trouble>
        ensures made { tells → OnOk result (files self.new ≡ after_change (files self.old) (Written path.now bytes.now)) }
        ensures kept { tells → OnErr result (MayChange (files self.old) (Written path.now bytes.now) (files self.new)) }
        ensures listed { tells → OnOk result (changes self.new ≡ changes self.old ++ Written path.now bytes.now ∷ []) }
        ensures unlisted { tells → OnErr result (changes self.new ≡ changes self.old) }
        ensures cause { HasCause (faults self.old) (faults self.new) result }
        ensures one { tells → calls self.new ≡ risen (calls self.old) };

    /// Removes the file at a path, if there is one. A failed removal may have been made.
    fn remove(&mut self, path: &Path) -> Result<(), Trouble>
        ensures made { tells → OnOk result (files self.new ≡ after_change (files self.old) (Removed path.now)) }
        ensures kept { tells → OnErr result (MayChange (files self.old) (Removed path.now) (files self.new)) }
        ensures listed { tells → OnOk result (changes self.new ≡ changes self.old ++ Removed path.now ∷ []) }
        ensures unlisted { tells → OnErr result (changes self.new ≡ changes self.old) }
        ensures cause { HasCause (faults self.old) (faults self.new) result }
        ensures one { tells → calls self.new ≡ risen (calls self.old) };
}
