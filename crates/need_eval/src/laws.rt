//! Laws of evaluations and of walks, for the contracts of callers.

ghost use Rattle.std.specs.Prelude.{◌≡◌, ◌≤◌, ℕ, [], ◌∷◌, ◌++◌, List, Option, Some, IsSome, Ok, Err, length};
ghost use Rattle.std.specs.List.{AllByRecursion};
ghost use Rattle.thunk_codec.specs.declared.job.Job.{Job};
ghost use Rattle.thunk_codec.specs.declared.job.Outcome.{Outcome};
ghost use Rattle.thunk_codec.specs.declared.reference.Ref.{Ref};
ghost use Rattle.thunk_codec.specs.Outcome.{Fits};
ghost use Rattle.thunk_codec.specs.Job.{ref_name, job_size, resolved_size};
ghost use Rattle.thunk_codec.specs.Reference.{IsRef};
ghost use Rattle.thunk_codec.specs.Resolved.{refs_of, resolved_by, HaveValueKind};
ghost use Rattle.thunk_codec.specs.Thunk.{Parts};
ghost use Rattle.object_name.specs.Name.{ObjectName};
ghost use Rattle.blob_store.specs.Keeping.{Kept};
ghost use Rattle.blob_store.specs.Store.{Store, held, written};
ghost use Rattle.need_eval.specs.declared.evaluating.Values.{Values};
ghost use Rattle.need_eval.specs.declared.fault.EvalFault.{EvalFault};
ghost use Rattle.need_eval.specs.declared.fault.Refusal.TheVariants.{TooBig};
ghost use Rattle.need_eval.specs.declared.prepared.Prepared.{Prepared};
ghost use Rattle.need_eval.specs.declared.walker.Walked.TheVariants.{Ended};
ghost use Rattle.need_eval.specs.declared.walker.Walker.{Walker};
ghost use Rattle.need_eval.specs.Eval.{State, Refused, Clash, Stands, Got, Stopped, start};
ghost use Rattle.need_eval.specs.Evaluation.{job_of, value_by, value_of, values_of, by_list};
ghost use Rattle.need_eval.specs.WritePrefix.{state_after, StopsWith, ListsAll, Does};
ghost use Rattle.need_eval.specs.MetObjects.{AreHeld, OutputsAreHeld, HasBigJob, IsMet, HaveOwnNames, ClashOfMet};
ghost use Rattle.need_eval.specs.StepContracts.{RunCause};
ghost use Rattle.need_eval.specs.Walking.{IsFresh, GoesOn, StandsAt, Advances, Supplied, Supplies, HasSteps};
ghost use Rattle.need_eval.specs.Walk.{Answers, IsWalk};
ghost use Rattle.need_eval.specs.Progress.{IsProgress, Evaluates};

pub mod stopping;

use thunk_codec::Function;

/// The store at the end of an evaluation is the store at its start with the writes put in, in order.
pub fn store_is_written()
    ensures { (answer : ℕ → Job → Option Outcome) (budget : ℕ) (refs : List Ref) (before : Store) → (state_after (values_of answer budget refs (start before))).store ≡ written before (state_after (values_of answer budget refs (start before))).writes }
{}

/// A list of outcomes answers as many jobs as it has, and nothing more is asked for.
pub fn lists_answer()
    ensures answers { (asked : List Job) (given : List Outcome) → length asked ≡ length given → Answers (by_list given) 0 asked given }
    ensures no_more { (refs : List Ref) (first : Kept) (given : List Outcome) (w : Walker) (now : Kept) (walk : IsWalk refs first given w now) →
        (state_after (values_of (by_list given) w.budget refs (start first.store))).asked ≡ walk.asked }
{}

/// Where a walker waits at a job, the evaluation with the outcomes given so far stands at this job and its text, with the store as
/// it is now.
pub fn walks_stand()
    ensures { (refs : List Ref) (first : Kept) (given : List Outcome) (w : Walker) (now : Kept) (p : Prepared) → IsWalk refs first given w now → StandsAt w now.store p →
        StopsWith (Stands p.text p.job) (values_of (by_list given) w.budget refs (start first.store)) now.store × ListsAll first.writes (values_of (by_list given) w.budget refs (start first.store)) now }
{}

/// A fresh walker is at the beginning of a walk.
pub fn walks_begin()
    ensures { (refs : List Ref) (budget : ℕ) (first : Kept) (w : Walker) → IsFresh refs budget w → IsWalk refs first [] w first }
{}

/// A walk goes on with its walker.
pub fn walks_go_on()
    ensures { (refs : List Ref) (first : Kept) (given : List Outcome) (w : Walker) (after : Walker) (now : Kept) →
        IsWalk refs first given w now → GoesOn w after now.store → after.budget ≡ w.budget → IsWalk refs first given after now }
{}

/// A walk whose walker took the outcome of its job has that outcome more.
pub fn walks_are_supplied()
    ensures { (refs : List Ref) (first : Kept) (given : List Outcome) (w : Walker) (after : Walker) (p : Prepared) (outcome : Outcome) (old : Kept) (now : Kept) →
        IsWalk refs first given w old → Supplied w after p outcome old now → after.budget ≡ w.budget → IsWalk refs first (given ++ outcome ∷ []) after now }
{}

/// Where the walker ends, so does the evaluation with the outcomes given, whatever answers come later.
pub fn walks_end()
    ensures values { (refs : List Ref) (first : Kept) (given : List Outcome) (w : Walker) (now : Kept) (walk : IsWalk refs first given w now) (answer : ℕ → Job → Option Outcome) (after : Walker) (values : Values) →
        Advances w after now.store (Ok (Ended values)) → HasSteps after (Ended values) → Answers answer 0 walk.asked given →
        Does first.writes (start first.store) (values_of answer w.budget refs (start first.store)) now (Ok values) }
    ensures fault { (refs : List Ref) (first : Kept) (given : List Outcome) (w : Walker) (now : Kept) (walk : IsWalk refs first given w now) (answer : ℕ → Job → Option Outcome) (after : Walker) (fault : EvalFault) →
        Advances w after now.store (Err fault) → Answers answer 0 walk.asked given →
        Does first.writes (start first.store) (values_of answer w.budget refs (start first.store)) now (Err fault) }
    ensures supplying { (refs : List Ref) (first : Kept) (given : List Outcome) (w : Walker) (now : Kept) (walk : IsWalk refs first given w now) (answer : ℕ → Job → Option Outcome) (after : Walker) (p : Prepared) (outcome : Outcome) (later : Kept) (fault : EvalFault) →
        Supplies w after p outcome now later (Err fault) → Answers answer 0 (walk.asked ++ p.job ∷ []) (given ++ outcome ∷ []) →
        Does first.writes (start first.store) (values_of answer w.budget refs (start first.store)) later (Err fault) }
{}

/// A walk with the outcomes of a function, as far as they are told, comes on.
pub fn progress_goes_on<F: Function>()
    ensures begins { (budget : ℕ) (refs : List Ref) (first : Kept) (w : Walker) →
        IsFresh refs budget w → IsProgress F.tells F.outcome budget refs first w first }
    ensures goes_on { (budget : ℕ) (refs : List Ref) (first : Kept) (w : Walker) (after : Walker) (now : Kept) →
        IsProgress F.tells F.outcome budget refs first w now → GoesOn w after now.store → after.budget ≡ w.budget → IsProgress F.tells F.outcome budget refs first after now }
    ensures is_supplied { (budget : ℕ) (refs : List Ref) (first : Kept) (w : Walker) (now : Kept) →
        IsProgress F.tells F.outcome budget refs first w now → (p : Prepared) → StandsAt w now.store p → (given : Outcome) → Fits p.job given → (F.tells p.job → given ≡ F.outcome p.job) →
        (after : Walker) (later : Kept) → Supplied w after p given now later → after.budget ≡ w.budget → IsProgress F.tells F.outcome budget refs first after later }
{}

/// Where such a walk ends, the whole evaluation has done what it answers.
pub fn progress_concludes<F: Function>()
    ensures values { (budget : ℕ) (refs : List Ref) (first : Kept) (w : Walker) (now : Kept) →
        IsProgress F.tells F.outcome budget refs first w now → (after : Walker) (later : Kept) (values : Values) → later ≡ now →
        Advances w after now.store (Ok (Ended values)) → HasSteps after (Ended values) → Evaluates F.tells F.outcome budget refs first later (Ok values) }
    ensures fault { (budget : ℕ) (refs : List Ref) (first : Kept) (w : Walker) (now : Kept) →
        IsProgress F.tells F.outcome budget refs first w now → (after : Walker) (later : Kept) (fault : EvalFault) → later ≡ now →
        Advances w after now.store (Err fault) → Evaluates F.tells F.outcome budget refs first later (Err fault) }
    ensures running { (budget : ℕ) (refs : List Ref) (first : Kept) (w : Walker) (now : Kept) →
        IsProgress F.tells F.outcome budget refs first w now → (before : ℕ) (after : ℕ) (fault : EvalFault) →
        RunCause before after fault → Evaluates F.tells F.outcome budget refs first now (Err fault) }
    ensures supplying { (budget : ℕ) (refs : List Ref) (first : Kept) (w : Walker) (now : Kept) →
        IsProgress F.tells F.outcome budget refs first w now → (p : Prepared) → StandsAt w now.store p → (given : Outcome) → Fits p.job given → (F.tells p.job → given ≡ F.outcome p.job) →
        (after : Walker) (later : Kept) (fault : EvalFault) → Supplies w after p given now later (Err fault) → Evaluates F.tells F.outcome budget refs first later (Err fault) }
{}

/// The value of a reference is the one by the values of those that are met on the way: the definition's recursion doesn't run out.
pub fn values_are_by_need()
    ensures { (answer : ℕ → Job → Option Outcome) (budget : ℕ) (r : Ref) (s : State) → value_of answer budget r s ≡ value_by answer budget (value_of answer budget) r s }
{}

/// An evaluation uses no more steps than its budget, and takes none back.
pub fn steps_are_within()
    ensures budget { (answer : ℕ → Job → Option Outcome) (budget : ℕ) (refs : List Ref) (s : State) → s.steps ≤ budget → (state_after (values_of answer budget refs s)).steps ≤ budget }
    ensures grow { (answer : ℕ → Job → Option Outcome) (budget : ℕ) (refs : List Ref) (s : State) → s.steps ≤ (state_after (values_of answer budget refs s)).steps }
{}

/// What is held stays held, with its bytes.
pub fn held_stays()
    ensures { (answer : ℕ → Job → Option Outcome) (budget : ℕ) (refs : List Ref) (s : State) (name : ObjectName) (bytes : List ℕ) →
        held s.store.objects name ≡ Some bytes → held (state_after (values_of answer budget refs s)).store.objects name ≡ Some bytes }
{}

/// The length of a job's encoding is known before any object is read, by the sizes in the names of its thunk.
pub fn job_lengths_are_known()
    ensures { (t : Parts) (s : State) (u : State) (job : Job) → job_of t s ≡ Got job u → job_size job ≡ resolved_size t }
{}

/// A job is made where all objects of its thunk are held.
pub fn jobs_are_made()
    ensures { (t : Parts) (s : State) → AllByRecursion (λ r. IsSome (held s.store.objects (ref_name r))) (refs_of t) → (job : Job) × (job_of t s ≡ Got job s) }
{}

/// Values have names of values.
pub fn one_answer()
    ensures { (answer : ℕ → Job → Option Outcome) (budget : ℕ) (refs : List Ref) (s : State) (names : List ObjectName) (t : State) →
        AllByRecursion IsRef refs → values_of answer budget refs s ≡ Got names t → HaveValueKind names }
{}

/// What an evaluation gives is held in the store that it leaves, and so are the outputs of all thunks that it reduced, where they
/// were held before; at the start nothing is reduced.
pub fn values_are_held()
    ensures values { (answer : ℕ → Job → Option Outcome) (budget : ℕ) (refs : List Ref) (s : State) (names : List ObjectName) (t : State) →
        OutputsAreHeld s → values_of answer budget refs s ≡ Got names t → AreHeld t.store names }
    ensures outputs { (answer : ℕ → Job → Option Outcome) (budget : ℕ) (refs : List Ref) (s : State) →
        OutputsAreHeld s → OutputsAreHeld (state_after (values_of answer budget refs s)) }
    ensures begins { (first : Store) → OutputsAreHeld (start first) }
{}

/// Where the values of a thunk's REFs are given, its job is made, and is as long as `reduce` takes it to be. A thunk is too big only
/// where it has a job of that length.
pub fn jobs_are_there()
    ensures made { (answer : ℕ → Job → Option Outcome) (budget : ℕ) (t : Parts) (s : State) (values : List ObjectName) (u : State) →
        OutputsAreHeld s → values_of answer budget (refs_of t) s ≡ Got values u →
        (job : Job) × (job_of (resolved_by t values) u ≡ Got job u) × (job_size job ≡ resolved_size (resolved_by t values)) }
    ensures too_big { (answer : ℕ → Job → Option Outcome) (budget : ℕ) (refs : List Ref) (first : Store) (name : ObjectName) (size : ℕ) (last : State) →
        values_of answer budget refs (start first) ≡ Stopped (Refused (TooBig name size)) last → HasBigJob name size last }
{}

/// The two objects of a clash were met: what is held was held at the start or is an output of the answer to a job, and the other is
/// such an output.
pub fn clashes_are_met()
    ensures { (answer : ℕ → Job → Option Outcome) (budget : ℕ) (refs : List Ref) (first : Store) (name : ObjectName) (found : List ℕ) (fresh : List ℕ) (last : State) →
        values_of answer budget refs (start first) ≡ Stopped (Clash name found fresh) last → ClashOfMet answer first last.asked name found fresh }
{}

/// Where no two objects that are met have one name, there is no clash.
pub fn no_clash_comes()
    ensures { (answer : ℕ → Job → Option Outcome) (budget : ℕ) (refs : List Ref) (first : Store) (name : ObjectName) (found : List ℕ) (fresh : List ℕ) (last : State) →
        HaveOwnNames (IsMet answer first (state_after (values_of answer budget refs (start first))).asked) →
        values_of answer budget refs (start first) ≡ Stopped (Clash name found fresh) last → ⊥ }
{}
