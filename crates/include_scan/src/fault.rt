//! Why a source can't be scanned.

ghost use Rattle.std.specs.Prelude.{◌≡◌};
ghost use Rattle.include_scan.specs.declared.fault.ScanFault.TheVariants.{Memory};
ghost use Rattle.include_scan.specs.Queue.{fault_of};

use file_tree::FileRefusal;
use object_name::Trouble;
use std::alloc::{AllocError, AllocFailed};

/// Why a source can't be scanned.
#[derive(Debug, PartialEq, Eq, Drop)]
pub enum ScanFault {
    /// A file is refused: the source isn't there, or a file is too long or a placeholder, or a line's file name is computed.
    Refused(FileRefusal),
    /// There are more than 4,096 files.
    TooMany,
    /// The tree failed more often than was tried again.
    Failed,
    /// Memory was refused.
    Memory,
}

impl From<AllocError> for ScanFault {
    ghost from_gives = { λ _ e. e ≡ Memory };

    fn from(_: AllocError) -> Self {
        ScanFault::Memory
    }
}

impl<T: Drop> From<AllocFailed<T>> for ScanFault {
    ghost from_gives = { λ _ e. e ≡ Memory };

    fn from(_: AllocFailed<T>) -> Self {
        ScanFault::Memory
    }
}

impl From<Trouble> for ScanFault {
    ghost from_gives = { λ trouble e. e ≡ fault_of trouble };

    fn from(trouble: Trouble) -> Self {
        match trouble {
            Trouble::Failed => ScanFault::Failed,
            Trouble::Memory => ScanFault::Memory,
        }
    }
}
