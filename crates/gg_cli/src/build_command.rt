//! The command `build`: the work of the lines of a script, done at once.

ghost use Rattle.std.specs.Prelude.{◌≡◌, ◌≢◌, ℕ, Err};
ghost use Rattle.blob_store.specs.Keeping.{Kept};
ghost use Rattle.file_tree.specs.Files.{filed_in};
ghost use Rattle.object_name.specs.Causes.{TriesAtMost};
ghost use Rattle.gg_cli.specs.Answer.{built};
ghost use Rattle.gg_cli.specs.StepContracts.{Ends, EndCause, answered, file_counts, file_faults_of, kept_faults_of, unkept};

use crate::fault::{TopFault, output_fault};
use crate::line_fault::line_fault;
use crate::script_lines::print_count;
use build_script::build_at_once;
use file_tree::Tree;
use object_name::Sink;
use std::alloc::Global;

/// Does `build` with the text of the input: the tools of each line are run, and then the number of commands is printed. The store
/// isn't looked at.
pub(crate) fn build_text<T: Tree, O: Sink>(
    alloc: Global,
    tree: &mut T,
    out: &mut O,
    text: &[u8],
    retries: u32,
) -> Result<(), TopFault>
    ensures ends { T.tells → (kept : Kept) → Ends (built text.now (T.files tree.old))
        (unkept kept (filed_in T.files T.changes tree.old) (filed_in T.files T.changes tree.new) (O.written out.old) (O.written out.new)) result }
    ensures cause { (kept : ℕ) → EndCause retries (file_counts kept (T.faults tree.old) (T.faults tree.new) (O.faults out.old) (O.faults out.new)) result }
    ensures no_keeper { answered kept_faults_of result ≡ 0 }
    ensures file_tries { T.tells → TriesAtMost retries T.calls T.faults tree.old tree.new (answered file_faults_of result) }
    ensures no_usage { result ≢ Err TopFault.Usage }
    ensures no_input { result ≢ Err TopFault.InputFailed }
{
    let commands = match build_at_once(alloc, text, tree, retries) {
        Ok(commands) => commands,
        Err(fault) => return Err(line_fault(alloc, fault)),
    };
    match print_count(alloc, out, b"commands ", commands) {
        Ok(()) => Ok(()),
        Err(trouble) => Err(output_fault(trouble)),
    }
}
