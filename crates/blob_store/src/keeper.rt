//! What keeps objects and notes by their names.

ghost use Rattle.std.specs.Prelude.{◌≡◌, ◌++◌, ◌∷◌, [], ℕ, List, IfOk, OnOk, OnErr};
ghost use Rattle.object_name.specs.Causes.{HasCause};
ghost use Rattle.object_name.specs.Calls.{risen};
ghost use Rattle.blob_store.specs.Store.{Store, Write, after_write};
ghost use Rattle.blob_store.specs.Store.Write.{Object, Note};
ghost use Rattle.blob_store.specs.Keeping.{MayWrite};

use object_name::{Bytes, Name, Trouble};
use std::alloc::Global;

/// What keeps objects and notes by their names. It doesn't look at the bytes: under a name may stand bytes of another.
pub trait Keeper {
    /// Whether what is kept is told.
    ghost tells: { Type 0 };

    /// What is kept.
    ghost store: { Self → Store };

    /// The puts that were answered Ok, the first of them first. One that failed may have been made, and is not among them.
    ghost writes: { Self → List Write };

    /// How often a call has failed.
    ghost faults: { Self → ℕ };

    /// How often a call was made.
    ghost calls: { Self → ℕ };

    /// The bytes under a name among the objects.
    fn get(&mut self, alloc: Global, name: &Name) -> Result<Option<Bytes>, Trouble>
        ensures found { tells → IfOk result (λ found. found ≡ (store self.old).objects name.now) }
        ensures same { tells → store self.new ≡ store self.old }
        ensures list { tells → writes self.new ≡ writes self.old }
        ensures cause { HasCause (faults self.old) (faults self.new) result }
        ensures one { tells → calls self.new ≡ risen (calls self.old) };

    /// Puts bytes under a name among the objects, in place of what was there. A failed put may have been made.
    fn put(&mut self, name: &Name, bytes: &[u8]) -> Result<(), Trouble>
        ensures made { tells → OnOk result (store self.new ≡ after_write (store self.old) (Object name.now bytes.now)) }
        ensures kept { tells → OnErr result (MayWrite (store self.old) (Object name.now bytes.now) (store self.new)) }
        ensures listed { tells → OnOk result (writes self.new ≡ writes self.old ++ Object name.now bytes.now ∷ []) }
        ensures unlisted { tells → OnErr result (writes self.new ≡ writes self.old) }
        ensures cause { HasCause (faults self.old) (faults self.new) result }
        ensures one { tells → calls self.new ≡ risen (calls self.old) };

    /// The bytes under a name among the notes.
    fn get_note(&mut self, alloc: Global, name: &Name) -> Result<Option<Bytes>, Trouble>
        ensures found { tells → IfOk result (λ found. found ≡ (store self.old).notes name.now) }
        ensures same { tells → store self.new ≡ store self.old }
        ensures list { tells → writes self.new ≡ writes self.old }
        ensures cause { HasCause (faults self.old) (faults self.new) result }
        ensures one { tells → calls self.new ≡ risen (calls self.old) };

    /// Puts bytes under a name among the notes, in place of what was there. A failed put may have been made.
    fn put_note(&mut self, name: &Name, bytes: &[u8]) -> Result<(), Trouble>
        ensures made { tells → OnOk result (store self.new ≡ after_write (store self.old) (Note name.now bytes.now)) }
        ensures kept { tells → OnErr result (MayWrite (store self.old) (Note name.now bytes.now) (store self.new)) }
        ensures listed { tells → OnOk result (writes self.new ≡ writes self.old ++ Note name.now bytes.now ∷ []) }
        ensures unlisted { tells → OnErr result (writes self.new ≡ writes self.old) }
        ensures cause { HasCause (faults self.old) (faults self.new) result }
        ensures one { tells → calls self.new ≡ risen (calls self.old) };
}
