//! The command `infer`: the work of the lines of a script, as thunks.

ghost use Rattle.std.specs.Prelude.{◌≡◌, ◌≢◌, Err};
ghost use Rattle.blob_store.specs.Keeping.{kept};
ghost use Rattle.file_tree.specs.Files.{filed_in};
ghost use Rattle.object_name.specs.Causes.{TriesAtMost};
ghost use Rattle.gg_cli.specs.Answer.{inferred};
ghost use Rattle.gg_cli.specs.Comes.{around};
ghost use Rattle.gg_cli.specs.StepContracts.{Ends, EndCause, answered, file_faults_of, kept_faults_of};

use crate::fault::{TopFault, output_fault};
use crate::line_fault::line_fault;
use crate::script_lines::print_inferred;
use blob_store::Keeper;
use build_script::infer;
use file_tree::Tree;
use object_name::Sink;
use std::alloc::Global;

/// Does `infer` with the text of the input: the work of each line is stored as thunks, and placeholders are left, and then the
/// numbers of commands and of thunks are printed.
pub(crate) fn infer_text<K: Keeper, T: Tree, O: Sink>(
    alloc: Global,
    keeper: &mut K,
    tree: &mut T,
    out: &mut O,
    text: &[u8],
    retries: u32,
) -> Result<(), TopFault>
    ensures ends { K.tells → T.tells → Ends (inferred text.now (K.store keeper.old) (T.files tree.old))
        (around (kept K.store K.writes) (filed_in T.files T.changes) O.written keeper.old keeper.new tree.old tree.new out.old out.new) result }
    ensures cause { EndCause retries (around K.faults T.faults O.faults keeper.old keeper.new tree.old tree.new out.old out.new) result }
    ensures kept_tries { K.tells → TriesAtMost retries K.calls K.faults keeper.old keeper.new (answered kept_faults_of result) }
    ensures file_tries { T.tells → TriesAtMost retries T.calls T.faults tree.old tree.new (answered file_faults_of result) }
    ensures no_usage { result ≢ Err TopFault.Usage }
    ensures no_input { result ≢ Err TopFault.InputFailed }
{
    let inferred = match infer(alloc, text, tree, keeper, retries) {
        Ok(inferred) => inferred,
        Err(fault) => return Err(line_fault(alloc, fault)),
    };
    match print_inferred(alloc, out, inferred) {
        Ok(()) => Ok(()),
        Err(trouble) => Err(output_fault(trouble)),
    }
}
