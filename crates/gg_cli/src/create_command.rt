//! The command `create-thunk`: a thunk of a recipe, and placeholders for its outputs.

ghost use Rattle.std.specs.Prelude.{◌≡◌, ◌≢◌, Err};
ghost use Rattle.blob_store.specs.Keeping.{kept};
ghost use Rattle.file_tree.specs.Files.{filed_in};
ghost use Rattle.object_name.specs.Causes.{TriesAtMost};
ghost use Rattle.build_plan.specs.Fitting.{IsFitRecipe};
ghost use Rattle.gg_cli.specs.Answer.{name_line, thunk_created};
ghost use Rattle.gg_cli.specs.Comes.{around};
ghost use Rattle.gg_cli.specs.StepContracts.{Ends, EndCause, answered, file_faults_of, kept_faults_of};
ghost use Rattle.gg_cli.specs.Writing.{Writes};

use crate::fault::{TopFault, output_fault};
use crate::pieces::write;
use crate::work_fault::work_fault;
use blob_store::Keeper;
use build_plan::{Recipe, create};
use file_tree::Tree;
use object_name::{Bytes, Name, SPELLING_LEN, Sink, Trouble};
use std::alloc::Global;

/// Prints a name in a line.
fn print_name<S: Sink>(alloc: Global, sink: &mut S, name: &Name) -> Result<(), Trouble>
    ensures { Writes (name_line name.now) (S.written sink.old) (S.written sink.new) (S.faults sink.old) (S.faults sink.new) result }
{
    let mut spelling = [0; SPELLING_LEN];
    name.spell(&mut spelling);
    let mut line = Bytes::from_slice(alloc, &spelling)?;
    line.append(b"\n")?;
    write(sink, line.as_slice())
}

/// Does `create-thunk`: the thunk of the recipe is stored, a placeholder is written for each output, and then the thunk's name is
/// printed.
pub(crate) fn create_thunk<K: Keeper, T: Tree, O: Sink>(
    alloc: Global,
    keeper: &mut K,
    tree: &mut T,
    out: &mut O,
    recipe: &Recipe,
    retries: u32,
) -> Result<(), TopFault>
    requires { IsFitRecipe recipe.now }
    ensures ends { K.tells → T.tells → Ends (thunk_created recipe.now (K.store keeper.old) (T.files tree.old))
        (around (kept K.store K.writes) (filed_in T.files T.changes) O.written keeper.old keeper.new tree.old tree.new out.old out.new) result }
    ensures cause { EndCause retries (around K.faults T.faults O.faults keeper.old keeper.new tree.old tree.new out.old out.new) result }
    ensures kept_tries { K.tells → TriesAtMost retries K.calls K.faults keeper.old keeper.new (answered kept_faults_of result) }
    ensures file_tries { T.tells → TriesAtMost retries T.calls T.faults tree.old tree.new (answered file_faults_of result) }
    ensures no_usage { result ≢ Err TopFault.Usage }
    ensures no_input { result ≢ Err TopFault.InputFailed }
{
    let name = match create(alloc, recipe, tree, keeper, retries) {
        Ok(name) => name,
        Err(fault) => return Err(work_fault(alloc, b"create-thunk", fault)),
    };
    match print_name(alloc, out, &name) {
        Ok(()) => Ok(()),
        Err(trouble) => Err(output_fault(trouble)),
    }
}
