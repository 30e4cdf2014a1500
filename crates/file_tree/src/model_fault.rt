//! Why the model of a command has no plan for it, or didn't do it.

ghost use Rattle.std.specs.Prelude.{◌≡◌};
ghost use Rattle.file_tree.specs.declared.model_fault.PlanFault.TheVariants.{Memory};

use crate::refusal::FileRefusal;
use object_name::{Bytes, Name};
use std::alloc::{AllocError, AllocFailed};

/// Why a command is refused.
#[derive(Clone, Copy, Debug, PartialEq, Eq)]
pub enum Reason {
    /// The model has no such word here.
    Unknown,
    /// A value or a word is missing.
    NoValue,
    /// A value or an operand isn't what it has to be.
    BadValue,
    /// There are stops after two different stages.
    TwoStages,
    /// One output is given for several files.
    OneFile,
    /// There is no file.
    NoInput,
    /// `-E` has no output.
    NeedsOutput,
    /// A file is of a kind that the stages up to the stop do nothing with.
    WrongKind,
    /// There are too many files, or too many bytes of words.
    TooMany,
    /// The shell would do something with a word.
    Shell,
    /// Two paths are one.
    Same,
}

/// Why there is no plan.
#[derive(Clone, Copy, Debug, PartialEq, Eq)]
pub enum PlanFault {
    /// A word is refused, the first that is. Words are counted from 0, which is the command's own word; a number that would
    /// pass 4,294,967,295 is that one.
    Refused { at: u32, reason: Reason },
    /// Memory ran out.
    Memory,
}

impl From<AllocError> for PlanFault {
    ghost from_gives = { λ _ fault. fault ≡ Memory };

    fn from(_: AllocError) -> Self {
        PlanFault::Memory
    }
}

impl<T: Drop> From<AllocFailed<T>> for PlanFault {
    ghost from_gives = { λ _ fault. fault ≡ Memory };

    fn from(_: AllocFailed<T>) -> Self {
        PlanFault::Memory
    }
}

/// Why what a plan says wasn't done.
#[derive(Debug, Drop)]
pub enum ApplyFault {
    /// A file is refused.
    Refused(FileRefusal),
    /// The command is refused: a source includes too many files.
    Reason(Reason),
    /// Other bytes are held under the name of an object that was to be stored.
    Clash {
        name: Name,
        held: Bytes,
        fresh: Bytes,
    },
    /// The keeper failed more often than was tried again.
    StoreFailed,
    /// The tree failed more often than was tried again.
    FileFailed,
    /// Memory ran out.
    Memory,
}

impl From<AllocError> for ApplyFault {
    ghost use Rattle.file_tree.specs.declared.model_fault.ApplyFault.TheVariants.{Memory};

    ghost from_gives = { λ _ fault. fault ≡ Memory };

    fn from(_: AllocError) -> Self {
        ApplyFault::Memory
    }
}

impl<T: Drop> From<AllocFailed<T>> for ApplyFault {
    ghost use Rattle.file_tree.specs.declared.model_fault.ApplyFault.TheVariants.{Memory};

    ghost from_gives = { λ _ fault. fault ≡ Memory };

    fn from(_: AllocFailed<T>) -> Self {
        ApplyFault::Memory
    }
}
