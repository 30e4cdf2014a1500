//! Thunks made of recipes.

ghost use Rattle.std.specs.Prelude.{◌≤◌, ◌<◌, ◌^◌, ℕ, IfOk, OnOk, length};
ghost use Rattle.thunk_codec.specs.Reference.{IsRef};
ghost use Rattle.thunk_codec.specs.declared.reference.Ref.TheVariants.{Out};
ghost use Rattle.blob_store.specs.Keeping.{kept};
ghost use Rattle.file_tree.specs.Files.{filed_in};
ghost use Rattle.object_name.specs.Causes.{TriesAtMost};
ghost use Rattle.build_plan.specs.Symbolic.{begun};
ghost use Rattle.build_plan.specs.Creating.{created, function_ref};
ghost use Rattle.build_plan.specs.Fitting.{IsFitFunction, IsFitRecipe};
ghost use Rattle.build_plan.specs.StepContracts.{Fares, Goes, recipe_thunk};
ghost use Rattle.build_plan.specs.Applying.{ApplyCause, ClashShows, Does, file_failures, kept_failures, sides};

use crate::inputs::{file_inputs, file_ref, input_refs};
use crate::recipe::{Recipe, RecipeFunction};
use crate::stored::{store_card, store_thunk};
use crate::targets::leave_placeholders;
use blob_store::Keeper;
use file_tree::{ApplyFault, Tree};
use object_name::Name;
use std::alloc::Global;
use thunk_codec::Ref;

/// The reference of a recipe's function: a card is stored, and a file is read.
fn function_ref<T: Tree, K: Keeper>(
    alloc: Global,
    function: &RecipeFunction,
    tree: &mut T,
    keeper: &mut K,
    retries: u32,
) -> Result<Ref, ApplyFault>
    requires { IsFitFunction function.now }
    ensures goes { K.tells → T.tells → Goes (function_ref function.now) 0
        (sides (kept K.store K.writes) (filed_in T.files T.changes) keeper.old keeper.new tree.old tree.new) result }
    ensures reference { IfOk result IsRef }
    ensures fares { Fares K.tells T.tells K.calls K.faults T.calls T.faults retries keeper.old keeper.new tree.old tree.new result }
{
    match function {
        RecipeFunction::Card(tool) => {
            let card = store_card(alloc, tool.as_slice(), keeper, retries)?;
            Ok(Ref::Value(card))
        }
        RecipeFunction::File(path) => file_ref(alloc, path, tree, keeper, retries),
    }
}

/// Stores the inputs of a recipe and its thunk, and gives the thunk's name.
fn create_thunk<T: Tree, K: Keeper>(
    alloc: Global,
    recipe: &Recipe,
    function: Ref,
    tree: &mut T,
    keeper: &mut K,
    retries: u32,
) -> Result<Name, ApplyFault>
    requires fits { IsFitRecipe recipe.now }
    requires function { IsRef function }
    ensures goes { K.tells → T.tells → Goes (recipe_thunk recipe.now function) 1
        (sides (kept K.store K.writes) (filed_in T.files T.changes) keeper.old keeper.new tree.old tree.new) result }
    ensures reference { IfOk result (λ name. (index : ℕ) → index < 2 ^ 32 → IsRef (Out name index)) }
    ensures few { OnOk result (length recipe.now.outputs ≤ 64) }
    ensures fares { Fares K.tells T.tells K.calls K.faults T.calls T.faults retries keeper.old keeper.new tree.old tree.new result }
{
    let inputs = file_inputs(alloc, recipe.inputs.as_slice())?;
    let refs = input_refs(alloc, &[], inputs.as_slice(), tree, keeper, retries)?;
    store_thunk(
        alloc,
        function,
        &recipe.args,
        &recipe.envs,
        refs,
        &recipe.outputs,
        keeper,
        retries,
    )
}

/// Stores a thunk by its recipe, after its function and its inputs, and writes a placeholder at the path of each output. Answers the
/// thunk's name. A failed call of the keeper or the tree is tried again, `retries` times at most. An object that is held isn't stored
/// again, and no file is changed before all objects are stored.
pub fn create<T: Tree, K: Keeper>(
    alloc: Global,
    recipe: &Recipe,
    tree: &mut T,
    keeper: &mut K,
    retries: u32,
) -> Result<Name, ApplyFault>
    requires { IsFitRecipe recipe.now }
    ensures exact { K.tells → T.tells → Does (created recipe.now (begun (K.store keeper.old) (T.files tree.old)))
        (sides (kept K.store K.writes) (filed_in T.files T.changes) keeper.old keeper.new tree.old tree.new) result }
    ensures clash { ClashShows result }
    ensures kept_later { K.faults keeper.old ≤ K.faults keeper.new }
    ensures files_later { T.faults tree.old ≤ T.faults tree.new }
    ensures cause { ApplyCause retries (K.faults keeper.old) (K.faults keeper.new) (T.faults tree.old) (T.faults tree.new) result }
    ensures kept_tries { K.tells → TriesAtMost retries K.calls K.faults keeper.old keeper.new (kept_failures result) }
    ensures file_tries { T.tells → TriesAtMost retries T.calls T.faults tree.old tree.new (file_failures result) }
{
    let function = function_ref(alloc, &recipe.function, tree, keeper, retries)?;
    let name = create_thunk(alloc, recipe, function, tree, keeper, retries)?;
    leave_placeholders(alloc, &name, recipe.outputs.as_slice(), tree, retries)?;
    Ok(name)
}
