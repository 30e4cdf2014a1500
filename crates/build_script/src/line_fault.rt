//! Why a build script isn't done.

ghost use Rattle.std.specs.Prelude.{◌≡◌};

use file_tree::{ApplyFault, Reason};
use object_name::Bytes;
use std::alloc::{AllocError, AllocFailed};

/// Why a build script isn't done. Lines are counted from 1; a number that would pass 4,294,967,295 is that.
#[derive(Debug, Drop)]
pub enum LineFault {
    /// A word of a line is refused, the first that is. A word that is left to a shell is shown as it is written, up to the next blank.
    Word {
        line: u32,
        word: Bytes,
        reason: Reason,
    },
    /// What a line says wasn't done. The fault is no `Reason`, which is that of the command's own word, and no `Memory`.
    Apply {
        line: u32,
        fault: ApplyFault,
    },
    /// A tool failed with this status.
    Tool {
        line: u32,
        status: u8,
    },
    /// Memory ran out.
    Memory,
}

impl From<AllocError> for LineFault {
    ghost use Rattle.build_script.specs.declared.line_fault.LineFault.TheVariants.{Memory};

    ghost from_gives = { λ _ fault. fault ≡ Memory };

    fn from(_: AllocError) -> Self {
        LineFault::Memory
    }
}

impl<T: Drop> From<AllocFailed<T>> for LineFault {
    ghost use Rattle.build_script.specs.declared.line_fault.LineFault.TheVariants.{Memory};

    ghost from_gives = { λ _ fault. fault ≡ Memory };

    fn from(_: AllocFailed<T>) -> Self {
        LineFault::Memory
    }
}
