//! Laws of paths, references, thunks and jobs that no single call shows.

ghost use Rattle.std.specs.Prelude.{IsTrue, true, ◌≡◌, ◌≤◌, ◌<◌, ◌^◌, ◌↔◌, ◌++◌, [], List, ℕ, Some, length, map};
ghost use Rattle.std.specs.List.{AllByRecursion};
ghost use Rattle.object_name.specs.Name.{ObjectName, max_size};
ghost use Rattle.thunk_codec.specs.declared.job.Job.{Job};
ghost use Rattle.thunk_codec.specs.declared.reference.Ref.{Ref};
ghost use Rattle.thunk_codec.specs.declared.reference.Ref.TheVariants.{Value};
ghost use Rattle.thunk_codec.specs.Path.{path_of, is_path};
ghost use Rattle.thunk_codec.specs.Folder.{folder_of, is_folder, parent_of, last_of, joined_from};
ghost use Rattle.thunk_codec.specs.Placeholder.{IsPlaceholder, placeholder_of};
ghost use Rattle.thunk_codec.specs.Reference.{IsRef, ref_text, ref_of};
ghost use Rattle.thunk_codec.specs.Thunk.{Parts, IsThunk, Text, keeps_rules};
ghost use Rattle.thunk_codec.specs.Fitting.{AreFit, unreferring, text_bound};
ghost use Rattle.thunk_codec.specs.Reading.{thunk_of};
ghost use Rattle.thunk_codec.specs.Job.{IsJobOf, job_keeps_rules, job_size, resolved_size, same_job, size_by_lengths};
ghost use Rattle.thunk_codec.specs.Resolved.{refs_of, resolved_by, AreNames, HaveValueKind, OfThunk, HaveObjectLengths};

/// A normal path is its own normal path, and the normal path of a text is one.
pub fn paths_stand()
    ensures again { (path : List ℕ) → IsTrue (is_path path) → path_of path ≡ Some path }
    ensures normal { (text : List ℕ) (path : List ℕ) → path_of text ≡ Some path → IsTrue (is_path path) }
{}

/// The folder of a folder's text is itself, and what a text gives is a folder.
pub fn folders_stand()
    ensures again { (folder : List ℕ) → IsTrue (is_folder folder) → folder_of folder ≡ Some folder }
    ensures normal { (text : List ℕ) (folder : List ℕ) → folder_of text ≡ Some folder → IsTrue (is_folder folder) }
{}

/// A path is its last component, seen from its folder.
pub fn parts_join()
    ensures { (path : List ℕ) → IsTrue (is_path path) → joined_from (parent_of path) (last_of path) ≡ Some path }
{}

/// Reading a placeholder as a total function reads exactly the texts of placeholders.
pub fn placeholders_read_back()
    ensures { (bytes : List ℕ) (name : ObjectName) (index : ℕ) → (placeholder_of bytes ≡ Some (name, index)) ↔ IsPlaceholder bytes name index }
{}

/// A text is the placeholder of one output, and an output has one placeholder.
pub fn one_placeholder_text()
    ensures output { (bytes : List ℕ) (n : ObjectName) (m : ObjectName) (i : ℕ) (j : ℕ) → IsPlaceholder bytes n i → IsPlaceholder bytes m j → (n ≡ m) × (i ≡ j) }
    ensures text { (a : List ℕ) (b : List ℕ) (n : ObjectName) (i : ℕ) → IsPlaceholder a n i → IsPlaceholder b n i → a ≡ b }
{}

/// Two references with one text are one reference.
pub fn one_ref_text()
    ensures { (r : Ref) (s : Ref) → IsRef r → IsRef s → ref_text r ≡ ref_text s → r ≡ s }
{}

/// Reading is the inverse of spelling.
pub fn refs_read_back()
    ensures spelled { (r : Ref) → IsRef r → ref_of (ref_text r) ≡ Some r }
    ensures named { (text : List ℕ) (r : Ref) → ref_of text ≡ Some r → IsRef r × (text ≡ ref_text r) }
{}

/// Reading a thunk's text as a total function reads exactly the texts of thunks.
pub fn texts_read_back()
    ensures { (bytes : List ℕ) (t : Parts) → (thunk_of bytes ≡ Some t) ↔ Text bytes t }
{}

/// A text is that of one thunk, and a thunk has one text.
pub fn one_text()
    ensures thunk { (bytes : List ℕ) (t : Parts) (u : Parts) → Text bytes t → Text bytes u → t ≡ u }
    ensures text { (a : List ℕ) (b : List ℕ) (t : Parts) → Text a t → Text b t → a ≡ b }
{}

/// No proper prefix of a thunk's text is a thunk's text.
pub fn no_prefix()
    ensures { (bytes : List ℕ) (rest : List ℕ) (t : Parts) (u : Parts) → Text bytes t → Text (bytes ++ rest) u → rest ≡ [] }
{}

/// The length of a job's encoding is known from the lengths of its objects.
pub fn job_length()
    ensures { (j : Job) → job_size j ≡ size_by_lengths (length j.function) j.args j.envs (map (λ i. (i.0, length i.1)) j.inputs) j.outputs }
{}

/// Jobs are the same exactly where they are equal.
pub fn jobs_are_compared()
    ensures { (a : Job) (b : Job) → (same_job a b ≡ true) ↔ (a ≡ b) }
{}

/// The job of a thunk keeps the rules of a job, and the length of its encoding is known from the sizes in the names of the thunk.
pub fn jobs_keep_rules()
    ensures rules { (t : Parts) (j : Job) → IsThunk t → IsJobOf t j → job_keeps_rules j ≡ true }
    ensures size { (t : Parts) (j : Job) → IsJobOf t j → job_size j ≡ resolved_size t }
{}

/// The length of a job's encoding is small.
pub fn jobs_are_short()
    ensures { (function : ℕ) (args : List (List ℕ)) (envs : List (List ℕ × List ℕ)) (inputs : List (List ℕ × ℕ)) (outputs : List (List ℕ))
        → function ≤ max_size → HaveObjectLengths inputs → OfThunk args envs (map (λ i. i.0) inputs) outputs → size_by_lengths function args envs inputs outputs < 2 ^ 40 }
{}

/// The references of a thunk are references.
pub fn thunks_have_refs()
    ensures { (t : Parts) → IsThunk t → AllByRecursion IsRef (refs_of t) }
{}

/// A thunk with values in place of its references is a thunk, and they are its references.
pub fn resolved_thunks()
    ensures thunk { (t : Parts) (values : List ObjectName) → IsThunk t → AreNames values → HaveValueKind values → IsThunk (resolved_by t values) }
    ensures refs { (t : Parts) (values : List ObjectName) → length values ≡ length (refs_of t) → refs_of (resolved_by t values) ≡ map Value values }
{}

/// Parts that keep the rules and whose lines are short enough make a thunk, whatever references stand in them.
pub fn parts_fit()
    ensures { (args : List (List ℕ)) (envs : List (List ℕ × List ℕ)) (paths : List (List ℕ)) (outputs : List (List ℕ))
        → keeps_rules (unreferring args envs paths outputs) ≡ true → text_bound args envs paths outputs ≤ max_size → AreFit args envs paths outputs }
{}
