//! Why a script isn't done, as a fault of a command line.

ghost use Rattle.std.specs.Prelude.{◌≡◌, ◌≢◌};
ghost use Rattle.gg_cli.specs.LowerFaults.{apply_fault, line_fault};

use crate::fault::TopFault;
use build_script::LineFault;
use file_tree::ApplyFault;
use object_name::Bytes;
use std::alloc::Global;

/// The fault of the work of a line. A reason has its word where it is that of a line; none is left to stand here.
fn apply_fault(alloc: Global, line: u32, fault: ApplyFault) -> TopFault
    ensures is_fault { result ≡ apply_fault line fault }
    ensures no_usage { result ≢ TopFault.Usage }
    ensures no_input { result ≢ TopFault.InputFailed }
{
    match fault {
        ApplyFault::Refused(refusal) => TopFault::FileRefused(refusal),
        ApplyFault::Reason(reason) => TopFault::LineNotModelled {
            line,
            word: Bytes::new(alloc),
            reason,
        },
        ApplyFault::Clash { name, .. } => TopFault::Clash(name),
        ApplyFault::StoreFailed => TopFault::StoreFailed,
        ApplyFault::FileFailed => TopFault::FileFailed,
        ApplyFault::Memory => TopFault::Memory,
    }
}

/// The fault that a script ended with.
pub(crate) fn line_fault(alloc: Global, fault: LineFault) -> TopFault
    ensures is_fault { result ≡ line_fault fault }
    ensures no_usage { result ≢ TopFault.Usage }
    ensures no_input { result ≢ TopFault.InputFailed }
{
    match fault {
        LineFault::Word { line, word, reason } => TopFault::LineNotModelled { line, word, reason },
        LineFault::Apply { line, fault } => apply_fault(alloc, line, fault),
        LineFault::Tool { line, status } => TopFault::ToolFailed { line, status },
        LineFault::Memory => TopFault::Memory,
    }
}
