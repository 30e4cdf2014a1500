//! Why the work of a command isn't done.

ghost use Rattle.std.specs.Prelude.{◌≡◌};

use file_tree::FileRefusal;
use include_scan::ScanFault;
use object_name::Trouble;
use std::alloc::{AllocError, AllocFailed};

/// Why the work of a command isn't done.
#[derive(Debug, Drop)]
pub(crate) enum RunFault {
    /// A file is refused.
    Refused(FileRefusal),
    /// A source includes too many files.
    TooMany,
    /// A tool failed with this status.
    Tool(u8),
    /// The tree failed more often than was tried again.
    Failed,
    /// Memory ran out.
    Memory,
}

impl From<AllocError> for RunFault {
    ghost use Rattle.build_script.specs.declared.run_fault.RunFault.TheVariants.{Memory};

    ghost from_gives = { λ _ fault. fault ≡ Memory };

    fn from(_: AllocError) -> Self {
        RunFault::Memory
    }
}

impl<T: Drop> From<AllocFailed<T>> for RunFault {
    ghost use Rattle.build_script.specs.declared.run_fault.RunFault.TheVariants.{Memory};

    ghost from_gives = { λ _ fault. fault ≡ Memory };

    fn from(_: AllocFailed<T>) -> Self {
        RunFault::Memory
    }
}

impl From<Trouble> for RunFault {
    ghost use Rattle.build_script.specs.WorkAtOnce.{fault_of_tree};

    ghost from_gives = { λ trouble fault. fault ≡ fault_of_tree trouble };

    fn from(trouble: Trouble) -> Self {
        match trouble {
            Trouble::Failed => RunFault::Failed,
            Trouble::Memory => RunFault::Memory,
        }
    }
}

impl From<ScanFault> for RunFault {
    ghost use Rattle.build_script.specs.WorkAtOnce.{fault_of_scan};

    ghost from_gives = { λ scanned fault. fault ≡ fault_of_scan scanned };

    fn from(scanned: ScanFault) -> Self {
        match scanned {
            ScanFault::Refused(refusal) => RunFault::Refused(refusal),
            ScanFault::TooMany => RunFault::TooMany,
            ScanFault::Failed => RunFault::Failed,
            ScanFault::Memory => RunFault::Memory,
        }
    }
}
