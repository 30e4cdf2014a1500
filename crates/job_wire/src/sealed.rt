//! Outcomes with their answers.

ghost use Rattle.std.specs.Prelude.{◌≡◌, IfOk};
ghost use Rattle.job_wire.specs.Answer.{answer_of, FitsAnObject};

use crate::answer::{Answer, answer_of};
use std::alloc::{AllocError, Global};
use std::marker::Model;
use thunk_codec::Outcome;

/// An outcome with its answer, so that its outputs are named once. Contracts see the outcome.
#[derive(Debug, Drop)]
pub struct Sealed {
    outcome: Outcome,
    answer: Answer,
}

impl Model for Sealed {
    ghost use Rattle.std.specs.Prelude.{◌≡◌};
    ghost use Rattle.thunk_codec.specs.declared.job.Outcome.{Outcome};
    ghost use Rattle.job_wire.specs.Answer.{answer_of};

    ghost Value = { Outcome };

    ghost view = { λ sealed. sealed.outcome };

    ghost invariant = { λ sealed. sealed.answer ≡ answer_of sealed.outcome };
}

impl Sealed {
    pub fn outcome(&self) -> &Outcome
        ensures { result.now ≡ self.now }
    {
        &self.outcome
    }

    pub fn answer(&self) -> &Answer
        ensures { result.now ≡ answer_of self.now }
    {
        &self.answer
    }

    /// The outcome and the answer.
    pub fn into_parts(self) -> (Outcome, Answer)
        ensures outcome { result.0 ≡ self }
        ensures answer { result.1 ≡ answer_of self }
    {
        (self.outcome, self.answer)
    }
}

/// An outcome with its answer. Nothing else makes one.
pub fn seal(alloc: Global, outcome: Outcome) -> Result<Sealed, AllocError>
    requires { FitsAnObject outcome }
    ensures { IfOk result (λ sealed. sealed ≡ outcome) }
{
    let answer = answer_of(alloc, &outcome)?;
    Ok(Sealed { outcome, answer })
}
