//! The runner of cards.

ghost use Rattle.std.specs.Prelude.{◌≡◌, ◌≤◌, ◌↔◌, IsTrue, length, sum_by};
ghost use Rattle.object_name.specs.Name.{max_size};
ghost use Rattle.sandbox_run.specs.Cards.{card_outcome, within_limit};
ghost use Rattle.sandbox_run.specs.CardsFit.{cards_fit};

use crate::tools::run_tool;
use object_name::{Bytes, MAX_SIZE, Trouble};
use std::alloc::Global;
use thunk_codec::{Function, Job, Outcome, Runner};

/// The status where the outputs together are over the size of an object.
const TOO_LONG: u8 = 201;

/// Whether some outputs together are within the size of an object.
fn fit_together(outputs: &[Bytes]) -> bool
    ensures { IsTrue result ↔ (sum_by length outputs.now ≤ max_size) }
{
    let mut room = MAX_SIZE as usize;
    'outputs: for bytes in outputs {
        if bytes.len() > room {
            return false;
        }
        room -= bytes.len();
    }
    true
}

/// The outcome, but for outputs that are too long together.
fn limit(outcome: Outcome) -> Outcome
    ensures { result ≡ within_limit outcome }
{
    match outcome {
        Outcome::Done(outputs) => {
            if fit_together(outputs.as_slice()) {
                Outcome::Done(outputs)
            } else {
                Outcome::Failed(TOO_LONG)
            }
        }
        Outcome::Failed(status) => Outcome::Failed(status),
    }
}

/// Runs jobs whose function is a card: `gg-tool `, the card's name and a line feed. Every other function has status 203, and outputs
/// that are together over 16,777,216 bytes have status 201.
#[derive(Debug, Drop)]
pub struct Cards;

impl Function for Cards {
    ghost outcome = { card_outcome };

    ghost tells = { λ job. Unit {0} };

    ghost fits = { cards_fit };
}

impl Runner for Cards {
    ghost faults = { λ runner. 0 };

    #[tactic(auto, unfolding(crate::specs::Cards::card_outcome))]
    fn run(&mut self, alloc: Global, job: &Job) -> Result<Outcome, Trouble> {
        Ok(limit(run_tool(alloc, job)?))
    }
}
