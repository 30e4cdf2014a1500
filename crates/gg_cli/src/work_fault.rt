//! Why work wasn't done, as faults of a command line.

ghost use Rattle.std.specs.Prelude.{◌≢◌};
ghost use Rattle.gg_cli.specs.LowerFaults.{IsRefusedWord, IsWorkFault};

use crate::fault::TopFault;
use file_tree::{ApplyFault, Reason};
use object_name::Bytes;
use std::alloc::Global;

/// A word is refused.
pub(crate) fn not_modelled(alloc: Global, word: &[u8], reason: Reason) -> TopFault
    ensures is_fault { IsRefusedWord word.now reason result }
    ensures no_usage { result ≢ TopFault.Usage }
    ensures no_input { result ≢ TopFault.InputFailed }
{
    match Bytes::from_slice(alloc, word) {
        Ok(word) => TopFault::NotModelled { word, reason },
        Err(_) => TopFault::Memory,
    }
}

/// The fault that work ended with, of a command whose own word is this.
pub(crate) fn work_fault(alloc: Global, word: &[u8], fault: ApplyFault) -> TopFault
    ensures is_fault { IsWorkFault word.now fault result }
    ensures no_usage { result ≢ TopFault.Usage }
    ensures no_input { result ≢ TopFault.InputFailed }
{
    match fault {
        ApplyFault::Refused(refusal) => TopFault::FileRefused(refusal),
        ApplyFault::Reason(reason) => not_modelled(alloc, word, reason),
        ApplyFault::Clash { name, .. } => TopFault::Clash(name),
        ApplyFault::StoreFailed => TopFault::StoreFailed,
        ApplyFault::FileFailed => TopFault::FileFailed,
        ApplyFault::Memory => TopFault::Memory,
    }
}
