//! What the call answers.

ghost use Rattle.std.specs.Prelude.{◌≡◌};
ghost use Rattle.force_pool.specs.Concluding.{conclusion, stopping};

use crate::fault::ForceFault;
use crate::halt::Halt;
use crate::worker_end::WorkerEnd;
use need_eval::Values;

/// The answer of the call, by the end of the walk, whether a worker was refused memory, whether each link was given up, why the
/// first worker ended that says that two answers differ, and whether a job has no outcome.
pub(crate) fn concluded(
    walked: Result<Values, Halt>,
    memory: bool,
    all_lost: bool,
    why: WorkerEnd,
    has_open: bool,
) -> Result<Values, ForceFault>
    ensures { result ≡ conclusion memory all_lost has_open why walked }
{
    if memory {
        return Err(ForceFault::Memory);
    }
    match walked {
        Ok(values) => Ok(values),
        Err(Halt::Eval(fault)) => Err(ForceFault::Eval(fault)),
        Err(Halt::Memory) => Err(ForceFault::Memory),
        Err(Halt::Stopped) => Err(stopped(all_lost, has_open, why)),
    }
}

/// Why the workers stopped. They stop where two answers differ, where memory is refused, or where each link is given up while a job
/// is open; no other stop comes.
fn stopped(all_lost: bool, has_open: bool, why: WorkerEnd) -> ForceFault
    ensures { result ≡ stopping all_lost has_open why }
{
    match why {
        WorkerEnd::Differs {
            resolved,
            first,
            second,
        } => ForceFault::Differs {
            resolved,
            first,
            second,
        },
        _ => {
            if !all_lost {
                return ForceFault::Memory;
            }
            if !has_open {
                return ForceFault::Memory;
            }
            ForceFault::LinksLost
        }
    }
}
