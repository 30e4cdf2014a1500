//! Faults of lower crates, as faults of applying a plan.

ghost use Rattle.std.specs.Prelude.{◌≡◌};
ghost use Rattle.build_plan.specs.StepContracts.{fault_of_scan, fault_of_store, fault_of_tree};

use blob_store::StoreFault;
use file_tree::{ApplyFault, Reason};
use include_scan::ScanFault;
use object_name::Trouble;

/// Why an object was not stored.
pub(crate) fn store_fault(fault: StoreFault) -> ApplyFault
    ensures { result ≡ fault_of_store fault }
{
    match fault {
        StoreFault::Clash { name, held, fresh } => ApplyFault::Clash { name, held, fresh },
        StoreFault::Failed => ApplyFault::StoreFailed,
        StoreFault::Memory => ApplyFault::Memory,
    }
}

/// Why a source was not scanned.
pub(crate) fn scan_fault(fault: ScanFault) -> ApplyFault
    ensures { result ≡ fault_of_scan fault }
{
    match fault {
        ScanFault::Refused(refusal) => ApplyFault::Refused(refusal),
        ScanFault::TooMany => ApplyFault::Reason(Reason::TooMany),
        ScanFault::Failed => ApplyFault::FileFailed,
        ScanFault::Memory => ApplyFault::Memory,
    }
}

/// Why a call of a tree that was tried again failed.
pub(crate) fn tree_fault(trouble: Trouble) -> ApplyFault
    ensures { result ≡ fault_of_tree trouble }
{
    match trouble {
        Trouble::Failed => ApplyFault::FileFailed,
        Trouble::Memory => ApplyFault::Memory,
    }
}
