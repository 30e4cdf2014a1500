//! The law on builds, as a contract, and that the plans of the models meet what it asks of plans.

ghost use Rattle.std.specs.Prelude.{◌≡◌, List, ℕ, Ok};
ghost use Rattle.thunk_codec.specs.declared.job.Job.{Job};
ghost use Rattle.thunk_codec.specs.declared.job.Outcome.{Outcome};
ghost use Rattle.model_gcc.specs.declared.gcc_plan.GccPlan.{GccPlan};
ghost use Rattle.model_gcc.specs.Plan.{plan_of as gcc_plan_of};
ghost use Rattle.model_gcc.specs.PlanOf.{build_of as gcc_build_of};
ghost use Rattle.model_binutils.specs.declared.bin_plan.BinPlan.{BinPlan};
ghost use Rattle.model_binutils.specs.Plan.{plan_of as binutils_plan_of};
ghost use Rattle.model_binutils.specs.PlanOf.{build_of as binutils_build_of};
ghost use Rattle.build_law.specs.Agreement.{BuildAgrees};
ghost use Rattle.build_law.specs.CardBuilds.{CardsAgree, SuitsCards};
ghost use Rattle.build_law.specs.ScriptsAgree.{ScriptsAgree};

/// Inferring a build and forcing all placeholders that it leaves gives the tree that the build at once
/// leaves.
pub fn builds_agree()
    ensures { (outcome : Job → Outcome) → BuildAgrees outcome }
{}

/// The same of the tools of cards, with the preprocessor over the whole tree.
pub fn builds_by_cards_agree()
    ensures { CardsAgree }
{}

/// The plans of all words that the models take are such as the law on the cards asks for.
pub fn model_plans_suit()
    ensures gcc { (words : List (List ℕ)) (plan : GccPlan) → gcc_plan_of words ≡ Ok plan → SuitsCards (gcc_build_of plan) }
    ensures binutils { (words : List (List ℕ)) (plan : BinPlan) → binutils_plan_of words ≡ Ok plan → SuitsCards (binutils_build_of plan) }
{}

/// Inferring a script to its end and forcing all placeholders that it leaves gives the tree that the
/// script leaves where it is built at once to its end, by the tools of cards.
pub fn scripts_agree()
    ensures { ScriptsAgree }
{}
