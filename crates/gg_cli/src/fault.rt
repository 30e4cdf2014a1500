//! Why a command line isn't done.

ghost use Rattle.std.specs.Prelude.{◌≡◌};
ghost use Rattle.gg_cli.specs.LowerFaults.{output_fault};

use file_tree::{FileRefusal, Reason, WantFault};
use need_eval::Refusal;
use object_name::{Bytes, Name, Trouble};
use std::alloc::AllocError;

/// Why a command line isn't done.
#[derive(Debug, Drop)]
pub(crate) enum TopFault {
    /// The words are no command line.
    Usage,
    /// An item is refused.
    FileRefused(FileRefusal),
    /// What was wanted is refused.
    Refused(Refusal),
    /// A word of a command is refused, or the command is.
    NotModelled {
        word: Bytes,
        reason: Reason,
    },
    /// A word of a line of a script is refused, or the line's command is.
    LineNotModelled {
        line: u32,
        word: Bytes,
        reason: Reason,
    },
    /// A tool that a line of a script runs failed.
    ToolFailed {
        line: u32,
        status: u8,
    },
    /// Other bytes are held under the name of an object that was to be stored.
    Clash(Name),
    /// There is more on the input than a script may have.
    InputTooLong,
    /// The keeper failed.
    StoreFailed,
    /// The tree failed.
    FileFailed,
    /// The input failed.
    InputFailed,
    /// The output failed.
    OutputFailed,
    /// Memory ran out.
    Memory,
}

/// The fault of an output that is in trouble.
pub(crate) fn output_fault(trouble: Trouble) -> TopFault
    ensures { result ≡ output_fault trouble }
{
    match trouble {
        Trouble::Failed => TopFault::OutputFailed,
        Trouble::Memory => TopFault::Memory,
    }
}

/// Why values aren't in the files that wanted them.
#[derive(Clone, Copy, Debug, PartialEq, Eq)]
pub(crate) enum FilingFault {
    /// A value isn't held any more: another program has taken it away.
    Missing(Name),
    /// The keeper failed.
    StoreFailed,
    /// The tree failed.
    FileFailed,
    /// Memory ran out.
    Memory,
}

impl From<WantFault> for TopFault {
    ghost use Rattle.gg_cli.specs.LowerFaults.{want_fault};

    ghost from_gives = { λ fault top. top ≡ want_fault fault };

    fn from(fault: WantFault) -> Self {
        match fault {
            WantFault::Refused(refusal) => TopFault::FileRefused(refusal),
            WantFault::Failed => TopFault::FileFailed,
            WantFault::Memory => TopFault::Memory,
        }
    }
}

impl From<FilingFault> for TopFault {
    ghost use Rattle.gg_cli.specs.LowerFaults.{filing_fault};

    ghost from_gives = { λ fault top. top ≡ filing_fault fault };

    fn from(fault: FilingFault) -> Self {
        match fault {
            FilingFault::Missing(name) => TopFault::Refused(Refusal::Missing(name)),
            FilingFault::StoreFailed => TopFault::StoreFailed,
            FilingFault::FileFailed => TopFault::FileFailed,
            FilingFault::Memory => TopFault::Memory,
        }
    }
}

impl From<AllocError> for TopFault {
    ghost use Rattle.std.specs.Prelude.{◌≡◌};
    ghost use Rattle.gg_cli.specs.declared.fault.TopFault.TheVariants.{Memory};

    ghost from_gives = { λ _ fault. fault ≡ Memory };

    fn from(_: AllocError) -> Self {
        TopFault::Memory
    }
}
