//! Laws of notes that no single call shows.

ghost use Rattle.std.specs.Prelude.{◌≡◌, ◌↔◌, ◌++◌, [], List, ℕ, Some};
ghost use Rattle.reduction_cache.specs.Note.{NoteOf, Note};
ghost use Rattle.reduction_cache.specs.Reading.{note_of};

/// Reading a note's text as a total function reads exactly the texts of notes.
pub fn notes_read_back()
    ensures { (bytes : List ℕ) (note : NoteOf) → (note_of bytes ≡ Some note) ↔ Note bytes note }
{}

/// A text is that of one note, and a note has one text.
pub fn one_note_text()
    ensures note { (bytes : List ℕ) (m : NoteOf) (n : NoteOf) → Note bytes m → Note bytes n → m ≡ n }
    ensures text { (a : List ℕ) (b : List ℕ) (note : NoteOf) → Note a note → Note b note → a ≡ b }
{}

/// No proper prefix of a note's text is a note's text.
pub fn no_prefix()
    ensures { (bytes : List ℕ) (rest : List ℕ) (m : NoteOf) (n : NoteOf) → Note bytes m → Note (bytes ++ rest) n → rest ≡ [] }
{}
