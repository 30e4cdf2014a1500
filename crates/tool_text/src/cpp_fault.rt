//! Why preprocessing stops.

ghost use Rattle.std.specs.Prelude.{◌≡◌};

use crate::failure::Failure;
use std::alloc::{AllocError, AllocFailed};

/// Why preprocessing stops before its end.
#[derive(Drop)]
pub(crate) enum CppFault {
    /// The source can't be preprocessed.
    Failed(Failure),
    /// Memory was refused.
    Memory,
}

impl From<AllocError> for CppFault {
    ghost use Rattle.tool_text.specs.declared.cpp_fault.CppFault.TheVariants.{Memory};

    ghost from_gives = { λ _ e. e ≡ Memory };

    fn from(_: AllocError) -> Self {
        CppFault::Memory
    }
}

impl<T: Drop> From<AllocFailed<T>> for CppFault {
    ghost use Rattle.tool_text.specs.declared.cpp_fault.CppFault.TheVariants.{Memory};

    ghost from_gives = { λ _ e. e ≡ Memory };

    fn from(_: AllocFailed<T>) -> Self {
        CppFault::Memory
    }
}
