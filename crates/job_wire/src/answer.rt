//! Outcomes by the names of their outputs.

ghost use Rattle.std.specs.Prelude.{◌≡◌, ◌≤◌, ◌↔◌, IsTrue, IfOk, length, map, sum_by};
ghost use Rattle.object_name.specs.Name.{max_size, name_of};
ghost use Rattle.job_wire.specs.Answer.{answer_of, FitsAnObject};

use object_name::{Bytes, Many, Name, TryCopy, name_of};
use std::alloc::{AllocError, Global};
use thunk_codec::Outcome;

/// An outcome with the names of its outputs in place of their bytes.
#[derive(Debug, Drop, PartialEq, Eq)]
pub enum Answer {
    /// The names of the outputs, in order.
    Done(Many<Name>),
    /// The status.
    Failed(u8),
}

impl TryCopy for Answer {
    fn copy(&self, alloc: Global) -> Result<Self, AllocError> {
        match self {
            Answer::Done(names) => Ok(Answer::Done(names.copy(alloc)?)),
            Answer::Failed(status) => Ok(Answer::Failed(*status)),
        }
    }
}

impl Answer {
    /// Whether two answers are equal.
    pub fn is_same(&self, other: &Answer) -> bool
        ensures { IsTrue result ↔ (self.now ≡ other.now) }
    {
        match (self, other) {
            (Answer::Done(names), Answer::Done(others)) => {
                same_names(names.as_slice(), others.as_slice())
            }
            (Answer::Failed(status), Answer::Failed(other)) => status == other,
            _ => false,
        }
    }
}

/// Whether some names are the same.
fn same_names(names: &[Name], others: &[Name]) -> bool
    ensures { IsTrue result ↔ (names.now ≡ others.now) }
{
    names == others
}

/// The name of bytes within the size of an object.
fn name_within(bytes: &[u8]) -> Name
    requires { length bytes.now ≤ max_size }
    ensures { result ≡ name_of bytes.now }
{
    match name_of(bytes) {
        Ok(name) => name,
        Err(_) => unreachable!(),
    }
}

/// The names of some objects that are together within the size of one.
fn names_of(alloc: Global, objects: &[Bytes]) -> Result<Many<Name>, AllocError>
    requires { sum_by length objects.now ≤ max_size }
    ensures { IfOk result (λ names. names ≡ map name_of objects.now) }
{
    let mut names = Many::new(alloc);
    'objects: for object in objects {
        names.push(name_within(object.as_slice()))?;
    }
    Ok(names)
}

/// The answer of an outcome.
pub(crate) fn answer_of(alloc: Global, outcome: &Outcome) -> Result<Answer, AllocError>
    requires { FitsAnObject outcome.now }
    ensures { IfOk result (λ answer. answer ≡ answer_of outcome.now) }
{
    match outcome {
        Outcome::Done(outputs) => Ok(Answer::Done(names_of(alloc, outputs.as_slice())?)),
        Outcome::Failed(status) => Ok(Answer::Failed(*status)),
    }
}
