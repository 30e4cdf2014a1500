//! Laws of stores that no single call shows.

ghost use Rattle.std.specs.Prelude.{◌≡◌, ◌++◌, ℕ, List, Some, None};
ghost use Rattle.object_name.specs.Name.{ObjectName, name_of};
ghost use Rattle.blob_store.specs.Store.{Store, Contents, Write, put, held, written, other_held, storing};

/// Bytes that are put under a name change nothing that is held under other names.
pub fn puts_leave_others()
    ensures { (contents : Contents) (name : ObjectName) (bytes : List ℕ) (other : ObjectName) → (other ≡ name → ⊥) → held (put contents name bytes) other ≡ held contents other }
{}

/// Storing bytes makes them held, where no other bytes of their name are. It displaces nothing, and leaves the notes.
pub fn storing_displaces_nothing()
    ensures own { (store : Store) (bytes : List ℕ) → other_held store bytes ≡ None → held (written store (storing store bytes)).objects (name_of bytes) ≡ Some bytes }
    ensures others { (store : Store) (bytes : List ℕ) (name : ObjectName) (kept : List ℕ) → held store.objects name ≡ Some kept → held (written store (storing store bytes)).objects name ≡ Some kept }
    ensures notes { (store : Store) (bytes : List ℕ) → (written store (storing store bytes)).notes ≡ store.notes }
{}

/// The writes of two lists, one after the other, are the writes of both together.
pub fn writes_follow_writes()
    ensures { (store : Store) (first : List Write) (second : List Write) → written store (first ++ second) ≡ written (written store first) second }
{}
