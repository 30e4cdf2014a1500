//! Laws of the model that no single call shows.

ghost use Rattle.std.specs.Prelude.{◌≡◌, List, ◌∷◌, ℕ, Ok};
ghost use Rattle.include_scan.specs.Scanned.{IsOver};
ghost use Rattle.build_plan.specs.Fitting.{IsFitPlan};
ghost use Rattle.model_gcc.specs.declared.gcc_plan.GccPlan.{GccPlan};
ghost use Rattle.model_gcc.specs.Plan.{plan_of};
ghost use Rattle.model_gcc.specs.PlanOf.{build_of};

/// Each thunk of a plan keeps the rules of thunks, whatever is in the files: the limits on words see to it.
pub fn plans_fit()
    ensures { (words : List (List ℕ)) (plan : GccPlan) → plan_of words ≡ Ok plan → IsFitPlan (build_of plan) }
{}

/// The preprocessor of a plan is run over the source that is scanned, and looks for headers in the folders in which that is done.
pub fn scans_are_over()
    ensures { (words : List (List ℕ)) (plan : GccPlan) → plan_of words ≡ Ok plan → (source : List ℕ) → IsOver plan.include_folders source (source ∷ plan.cpp_words) }
{}
