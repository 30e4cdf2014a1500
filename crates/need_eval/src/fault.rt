//! Why there are no values.

ghost use Rattle.std.specs.Prelude.{◌≡◌};
ghost use Rattle.need_eval.specs.declared.fault.EvalFault.TheVariants.{Memory};

use object_name::{Bytes, Name};
use std::alloc::{AllocError, AllocFailed};

/// Why what was wanted has no value. Names are those of the objects or thunks as they were referred to.
#[derive(Clone, Copy, Debug, PartialEq, Eq)]
pub enum Refusal {
    /// No object of this name is held.
    Missing(Name),
    /// The object of this name is the text of no thunk.
    BadThunk(Name),
    /// The thunk has no output of this place.
    NoOutput { name: Name, index: u32 },
    /// The budget was spent before this thunk was entered.
    Spent { name: Name, budget: u32 },
    /// The encoding of the thunk's job has so many bytes, over 67,108,864.
    TooBig { name: Name, bytes: u64 },
    /// The thunk's function failed with a status from 1 to 204.
    FunctionFailed { name: Name, status: u8 },
}

/// Why there are no values.
#[derive(Debug, Drop)]
pub enum EvalFault {
    Refused(Refusal),
    /// Other bytes are held under the name of an output.
    Clash {
        name: Name,
        held: Bytes,
        fresh: Bytes,
    },
    /// The keeper failed more often than was tried again.
    StoreFailed,
    /// The runner failed.
    RunFailed,
    /// Memory was refused.
    Memory,
}

impl From<AllocError> for EvalFault {
    ghost from_gives = { λ _ e. e ≡ Memory };

    fn from(_: AllocError) -> Self {
        EvalFault::Memory
    }
}

impl<T: Drop> From<AllocFailed<T>> for EvalFault {
    ghost from_gives = { λ _ e. e ≡ Memory };

    fn from(_: AllocFailed<T>) -> Self {
        EvalFault::Memory
    }
}
