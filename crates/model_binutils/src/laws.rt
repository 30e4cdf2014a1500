//! Laws of plans that no single call shows.

ghost use Rattle.std.specs.Prelude.{◌≡◌, List, ℕ, Ok};
ghost use Rattle.build_plan.specs.Fitting.{IsFitPlan};
ghost use Rattle.model_binutils.specs.declared.bin_plan.BinPlan.{BinPlan};
ghost use Rattle.model_binutils.specs.Plan.{plan_of};
ghost use Rattle.model_binutils.specs.PlanOf.{build_of};

/// Each thunk of a plan of some words keeps a thunk's rules, with the old archive and without.
pub fn plans_fit()
    ensures { (words : List (List ℕ)) (plan : BinPlan) → plan_of words ≡ Ok plan → IsFitPlan (build_of plan) }
{}
