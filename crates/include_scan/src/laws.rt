//! Laws of scanning that no single call shows.

ghost use Rattle.std.specs.Prelude.{◌≡◌, ℕ, List, Bool};
ghost use Rattle.thunk_codec.specs.Files.{Files};
ghost use Rattle.text_lines.specs.Among.{is_among};
ghost use Rattle.include_scan.specs.Scanned.{AreThere, IsClosed, SufficesForJobs, only};
ghost use Rattle.tool_text.specs.Expand.{Macros};
ghost use Rattle.tool_text.specs.Preprocess.{preprocessed};

/// Preprocessing a source with the files of a set alone that has the source and what each of its files may include gives what it
/// gives with all files.
pub fn files_suffice()
    ensures { (files : Files) (folders : List (List ℕ)) (macros : Macros) (source : List ℕ) (is_in : List ℕ → Bool) → IsClosed files folders source is_in
        → preprocessed (only is_in files) folders macros source ≡ preprocessed files folders macros source }
{}

/// The files of such a set, where all of them are there, are inputs enough for a job of the card `cpp`: its outcome is that of the job
/// whose inputs are all files.
pub fn inputs_suffice()
    ensures { (files : Files) (folders : List (List ℕ)) (source : List ℕ) (paths : List (List ℕ)) → IsClosed files folders source (is_among paths)
        → AreThere files paths → SufficesForJobs files folders source paths }
{}
