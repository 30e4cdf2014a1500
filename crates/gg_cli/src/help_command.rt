//! The command `help`.

ghost use Rattle.std.specs.Prelude.{◌≡◌, ◌≢◌, ℕ, [], Err};
ghost use Rattle.blob_store.specs.Keeping.{Kept};
ghost use Rattle.file_tree.specs.Files.{Filed};
ghost use Rattle.gg_cli.specs.Answer.{all_done};
ghost use Rattle.gg_cli.specs.HelpText.{help_text};
ghost use Rattle.gg_cli.specs.StepContracts.{Ends, EndCause, answered, file_counts, file_faults_of, kept_faults_of, unkept};

use crate::fault::{TopFault, output_fault};
use crate::pieces::write;
use object_name::Sink;

/// The first word of each command in a line.
const TEXT: &[u8] = b"force\ncreate-thunk\nmodel\ninfer\nbuild\ndescribe\ndemo\nworker\nhelp\n";

/// Does `help`: the first word of each command is printed. The store and the files aren't looked at.
pub(crate) fn help<O: Sink>(out: &mut O) -> Result<(), TopFault>
    ensures ends { (kept : Kept) (files : Filed) → Ends (all_done [] help_text) (unkept kept files files (O.written out.old) (O.written out.new)) result }
    ensures cause { (retries kept files : ℕ) → EndCause retries (file_counts kept files files (O.faults out.old) (O.faults out.new)) result }
    ensures no_keeper { answered kept_faults_of result ≡ 0 }
    ensures no_tree { answered file_faults_of result ≡ 0 }
    ensures no_usage { result ≢ Err TopFault.Usage }
    ensures no_input { result ≢ Err TopFault.InputFailed }
{
    match write(out, TEXT) {
        Ok(()) => Ok(()),
        Err(trouble) => Err(output_fault(trouble)),
    }
}
