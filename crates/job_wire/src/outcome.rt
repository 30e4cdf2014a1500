//! Outcomes in frames.

ghost use Rattle.std.specs.Prelude.{◌≡◌, ◌++◌, nat_le, length, sum_by, OnOk};
ghost use Rattle.object_name.specs.Name.{max_size};
ghost use Rattle.job_wire.specs.Frame.{IsOutcome, outcome_encoding};
ghost use Rattle.job_wire.specs.Gives.{Gives};
ghost use Rattle.job_wire.specs.Reading.{outputs_of, status_of, outcome_of};

use crate::fault::ReadFault;
use crate::list::{list_at, write_list};
use object_name::{Bytes, MAX_OUTPUTS, MAX_SIZE};
use std::alloc::{AllocError, Global};
use thunk_codec::Outcome;

/// Whether some outputs are together within the size of an object.
pub fn fit_together(outputs: &[Bytes]) -> bool
    ensures { result ≡ nat_le (sum_by length outputs.now) max_size }
{
    let mut room = MAX_SIZE as usize;
    'outputs: for bytes in outputs {
        if bytes.len() > room {
            return false;
        }
        room -= bytes.len();
    }
    true
}

/// The outcome with these outputs, where the bytes are all of them.
#[tactic(auto, unfolding(crate::specs::Reading::outputs_of))]
fn outputs_of(alloc: Global, bytes: &[u8]) -> Result<Outcome, ReadFault>
    ensures { Gives (λ outcome. outcome) result (outputs_of bytes.now) }
{
    let (outputs, rest) = list_at::<Bytes>(alloc, bytes)?;
    if !rest.is_empty() {
        return Err(ReadFault::Bad);
    }
    if outputs.len() < 1 || outputs.len() > MAX_OUTPUTS {
        return Err(ReadFault::Bad);
    }
    if !fit_together(outputs.as_slice()) {
        return Err(ReadFault::Bad);
    }
    Ok(Outcome::Done(outputs))
}

/// The outcome with this status, where it is all of the bytes.
fn status_of(bytes: &[u8]) -> Result<Outcome, ReadFault>
    ensures { Gives (λ outcome. outcome) result (status_of bytes.now) }
{
    match bytes {
        [status] => {
            if *status < 1 || *status > 204 {
                return Err(ReadFault::Bad);
            }
            Ok(Outcome::Failed(*status))
        }
        _ => Err(ReadFault::Bad),
    }
}

/// The outcome whose encoding the bytes are, all of them.
#[tactic(auto, unfolding(crate::specs::Reading::outcome_of))]
pub(crate) fn outcome_of(alloc: Global, bytes: &[u8]) -> Result<Outcome, ReadFault>
    ensures { Gives (λ outcome. outcome) result (outcome_of bytes.now) }
{
    match bytes {
        [] => Err(ReadFault::Bad),
        [0, rest @ ..] => outputs_of(alloc, rest),
        [1, rest @ ..] => status_of(rest),
        [_, ..] => Err(ReadFault::Bad),
    }
}

/// Appends the encoding of an outcome.
#[tactic(auto, unfolding(crate::specs::Frame::outcome_encoding))]
pub(crate) fn write_outcome(outcome: &Outcome, out: &mut Bytes) -> Result<(), AllocError>
    requires { IsOutcome outcome.now }
    ensures { OnOk result (out.new ≡ out.old ++ outcome_encoding outcome.now) }
{
    match outcome {
        Outcome::Done(outputs) => {
            out.append(&[0])?;
            write_list(outputs.as_slice(), out)
        }
        Outcome::Failed(status) => out.append(&[1, *status]),
    }
}
