//! Why the caller's walk stops.

use need_eval::EvalFault;
use std::alloc::AllocError;

/// Why no outcome comes.
#[derive(Debug, Drop)]
pub(crate) enum Pause {
    /// The workers have stopped.
    Stopped,
    /// Memory was refused.
    Memory,
}

/// Why the walk stops.
#[derive(Debug, Drop)]
pub(crate) enum Halt {
    /// At a fault of the evaluation.
    Eval(EvalFault),
    /// The workers have stopped.
    Stopped,
    /// Memory was refused.
    Memory,
}

impl From<Pause> for Halt {
    ghost use Rattle.std.specs.Prelude.{◌≡◌};
    ghost use Rattle.force_pool.specs.Walks.{by_pause};

    ghost from_gives = { λ pause made. made ≡ by_pause pause };

    fn from(pause: Pause) -> Self {
        match pause {
            Pause::Stopped => Halt::Stopped,
            Pause::Memory => Halt::Memory,
        }
    }
}

impl From<EvalFault> for Halt {
    ghost use Rattle.std.specs.Prelude.{◌≡◌};
    ghost use Rattle.force_pool.specs.declared.halt.Halt.TheVariants.{Eval};

    ghost from_gives = { λ fault made. made ≡ Eval fault };

    fn from(fault: EvalFault) -> Self {
        Halt::Eval(fault)
    }
}

impl From<AllocError> for Halt {
    ghost use Rattle.std.specs.Prelude.{◌≡◌};
    ghost use Rattle.force_pool.specs.declared.halt.Halt.TheVariants.{Memory};

    ghost from_gives = { λ fault made. made ≡ Memory };

    fn from(_fault: AllocError) -> Self {
        Halt::Memory
    }
}
