//! Laws of evaluations that stop and begin again over what they left, and of the notes that they find.

ghost use Rattle.std.specs.Prelude.{ℕ, List, Option, Result};
ghost use Rattle.thunk_codec.specs.declared.job.Job.{Job};
ghost use Rattle.thunk_codec.specs.declared.job.Outcome.{Outcome};
ghost use Rattle.thunk_codec.specs.declared.reference.Ref.{Ref};
ghost use Rattle.blob_store.specs.Keeping.{Kept};
ghost use Rattle.blob_store.specs.Store.{Store};
ghost use Rattle.need_eval.specs.declared.evaluating.Values.{Values};
ghost use Rattle.need_eval.specs.declared.fault.EvalFault.{EvalFault};
ghost use Rattle.need_eval.specs.Eval.{start};
ghost use Rattle.need_eval.specs.Evaluation.{values_of, by_function};
ghost use Rattle.need_eval.specs.WritePrefix.{Does, IsWritePrefix, StopsPartWay};
ghost use Rattle.need_eval.specs.MetObjects.{HaveOwnNames};
ghost use Rattle.need_eval.specs.StopAndAgain.{without_notes, jobs_met, TrueNotes, EndAlike, EndAlikeButNotes, IsLeft, MayStop, IsMetByEither};

/// Whatever a call that evaluates answers, it has made a prefix of the evaluation's writes, and put each of them once.
pub fn calls_leave_prefixes()
    ensures made { (answer : ℕ → Job → Option Outcome) (budget : ℕ) (refs : List Ref) (first : Kept) (now : Kept) (result : Result Values EvalFault) →
        Does first.writes (start first.store) (values_of answer budget refs (start first.store)) now result → IsWritePrefix (start first.store) (values_of answer budget refs (start first.store)) now.store }
    ensures once { (answer : ℕ → Job → Option Outcome) (budget : ℕ) (refs : List Ref) (first : Kept) (now : Kept) (result : Result Values EvalFault) →
        Does first.writes (start first.store) (values_of answer budget refs (start first.store)) now result → StopsPartWay first.writes (start first.store) (values_of answer budget refs (start first.store)) now }
{}

/// Evaluation over what any number of stopped runs left gives the same answer, takes as many steps and leaves the same store as it
/// does over the store at the first start.
pub fn stop_and_again()
    ensures { (outcome : Job → Outcome) (budget : ℕ) (refs : List Ref) (first : Store) (now : Store) → MayStop outcome budget refs first → IsLeft outcome budget refs first now →
        EndAlike (values_of (by_function outcome) budget refs (start now)) (values_of (by_function outcome) budget refs (start first)) }
{}

/// True notes change no answer, no steps and no objects.
pub fn notes_are_unseen()
    ensures { (outcome : Job → Outcome) (budget : ℕ) (refs : List Ref) (first : Store) → MayStop outcome budget refs first →
        EndAlikeButNotes (values_of (by_function outcome) budget refs (start first)) (values_of (by_function outcome) budget refs (start (without_notes first))) }
{}

/// The notes that an evaluation writes are true for a later one over what it left: all notes are, where those of the first store are
/// and no two objects that either meets have one name.
pub fn own_notes_are_true()
    ensures { (outcome : Job → Outcome) (budget : ℕ) (refs : List Ref) (first : Store) (now : Store) → MayStop outcome budget refs first → IsLeft outcome budget refs first now →
        (later_budget : ℕ) (later_refs : List Ref) → HaveOwnNames (IsMetByEither outcome budget refs first later_budget later_refs now) →
        TrueNotes outcome first (jobs_met outcome later_budget later_refs now) → TrueNotes outcome now (jobs_met outcome later_budget later_refs now) }
{}
