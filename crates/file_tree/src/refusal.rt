//! Refusals of files, and why wanted items weren't read.

ghost use Rattle.std.specs.Prelude.{◌≡◌};
ghost use Rattle.file_tree.specs.declared.refusal.WantFault.TheVariants.{Memory};
ghost use Rattle.file_tree.specs.WantAnswers.{fault_of};

use object_name::{Bytes, Trouble};
use std::alloc::{AllocError, AllocFailed};
use thunk_codec::Path;

/// Why a file is refused.
#[derive(Debug, PartialEq, Eq, Drop)]
pub enum FileRefusal {
    /// An item is spelled so, as one before it.
    Twice(Bytes),
    /// There is no file.
    NoFile(Path),
    /// The file has more bytes than an object may have.
    TooLong(Path),
    /// The file is no placeholder.
    NotPlaceholder(Path),
    /// The file is a placeholder, and bytes are needed.
    Generated(Path),
    /// The bytes of the file are those of a thunk, and a value is needed.
    ThunkText(Path),
    /// A line includes a file whose name is computed.
    Computed { path: Path, line: u32 },
}

/// Why wanted items have no references.
#[derive(Debug, PartialEq, Eq, Drop)]
pub enum WantFault {
    /// An item is refused.
    Refused(FileRefusal),
    /// The tree failed more often than was tried again.
    Failed,
    /// Out of memory.
    Memory,
}

impl From<AllocError> for WantFault {
    ghost from_gives = { λ _ e. e ≡ Memory };

    fn from(_: AllocError) -> Self {
        WantFault::Memory
    }
}

impl<T: Drop> From<AllocFailed<T>> for WantFault {
    ghost from_gives = { λ _ e. e ≡ Memory };

    fn from(_: AllocFailed<T>) -> Self {
        WantFault::Memory
    }
}

impl From<Trouble> for WantFault {
    ghost from_gives = { λ trouble e. e ≡ fault_of trouble };

    fn from(trouble: Trouble) -> Self {
        match trouble {
            Trouble::Failed => WantFault::Failed,
            Trouble::Memory => WantFault::Memory,
        }
    }
}
