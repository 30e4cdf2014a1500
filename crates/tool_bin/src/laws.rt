//! Laws of the cards and of objects that no single call shows.

ghost use Rattle.thunk_codec.specs.declared.job.Job.{Job};
ghost use Rattle.std.specs.Prelude.{◌≡◌, ◌<◌, ◌^◌, ℕ, List, Some, Ok, length, true};
ghost use Rattle.tool_bin.specs.declared.object.Object.{Object};
ghost use Rattle.tool_bin.specs.Ar.{ar_outcome, ranlib_outcome};
ghost use Rattle.tool_bin.specs.Assemble.{as_outcome, assembled, assembled_text};
ghost use Rattle.tool_bin.specs.Compile.{cc1_outcome};
ghost use Rattle.thunk_codec.specs.Outcome.{HasForm};
ghost use Rattle.tool_bin.specs.Object.{object_head, executable_head, object_text, is_well_formed};
ghost use Rattle.tool_bin.specs.ObjectReading.{object_of};
ghost use Rattle.tool_bin.specs.Strip.{strip_outcome, stripped};
ghost use Rattle.tool_bin.specs.declared.program.Program.{Program};
ghost use Rattle.tool_bin.specs.Archive.{ArchiveContents};
ghost use Rattle.tool_bin.specs.Link.{ld_outcome, linked, objects_in, pass, with_archive};
ghost use Rattle.tool_bin.specs.CompleteProgram.{IsComplete};
ghost use Rattle.tool_bin.specs.Representable.{IsRepresentableObject};

/// The outcome of each card has the form that its job wants.
pub fn outcomes_have_form()
    ensures cc1 { (job : Job) → HasForm job (cc1_outcome job) }
    ensures assembler { (job : Job) → HasForm job (as_outcome job) }
    ensures ld { (job : Job) → HasForm job (ld_outcome job) }
    ensures ar { (job : Job) → HasForm job (ar_outcome job) }
    ensures ranlib { (job : Job) → HasForm job (ranlib_outcome job) }
    ensures strip { (job : Job) → HasForm job (strip_outcome job) }
{}

/// An object is read from its own text alone. So no object has two texts, and no two objects have one.
pub fn one_text()
    ensures { (head : List ℕ) (bytes : List ℕ) (object : Object) → object_of head bytes ≡ Some object → bytes ≡ object_text head object }
{}

/// Objects and executables are read from their texts.
pub fn texts_read_back()
    ensures objects { (object : Object) → IsRepresentableObject object → is_well_formed object ≡ true → object_of object_head (object_text object_head object) ≡ Some object }
    ensures executables { (object : Object) → IsRepresentableObject object → is_well_formed object ≡ true
        → object_of executable_head (object_text executable_head object) ≡ Some object }
{}

/// The object that a text is assembled into is read from its own text.
pub fn assembled_reads_back()
    ensures { (source : List ℕ) (object : Object) → assembled source ≡ Some object → length (object_text object_head object) < 2 ^ 64
        → object_of object_head (object_text object_head object) ≡ Some object }
{}

/// Each object is the text that some source is assembled into.
pub fn objects_are_assembled()
    ensures { (bytes : List ℕ) (object : Object) → object_of object_head bytes ≡ Some object → (source : List ℕ) × (assembled_text source ≡ Some bytes) }
{}

/// Stripping what is stripped changes nothing.
pub fn stripped_once()
    ensures { (source : List ℕ) (text : List ℕ) → stripped source ≡ Some text → length text < 2 ^ 64 → stripped text ≡ Some text }
{}

/// A linked program has `main` and all that is called, and no two symbols of one name.
pub fn programs_are_complete()
    ensures { (job : Job) (program : Program) → linked job ≡ Ok program → IsComplete program.symbols }
{}

/// Where the search of an archive ends, a further pass over its objects adds nothing: the number of passes never cuts a search short.
pub fn searches_are_whole()
    ensures { (program : Program) (more : Program) (archive : ArchiveContents) → with_archive program (Some archive) ≡ Ok more
        → pass more (objects_in archive.members) ≡ Ok more }
{}
