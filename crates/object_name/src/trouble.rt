//! What stops a call that reaches outside or allocates.

ghost use Rattle.std.specs.Prelude.{◌≡◌};
ghost use Rattle.object_name.specs.declared.trouble.Trouble.TheVariants.{Memory};

use std::alloc::{AllocError, AllocFailed};

/// What stops a call that reaches outside or allocates.
#[derive(Clone, Copy, Debug, PartialEq, Eq)]
pub enum Trouble {
    /// The outside failed: its count of faults rose.
    Failed,
    /// Memory was refused.
    Memory,
}

impl From<AllocError> for Trouble {
    ghost from_gives = { λ _ e. e ≡ Memory };

    fn from(_: AllocError) -> Self {
        Trouble::Memory
    }
}

impl<T: Drop> From<AllocFailed<T>> for Trouble {
    ghost from_gives = { λ _ e. e ≡ Memory };

    fn from(_: AllocFailed<T>) -> Self {
        Trouble::Memory
    }
}
