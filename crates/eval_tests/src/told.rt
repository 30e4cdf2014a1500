//! A function of jobs that is told: whoever runs a job gives the outcome that contracts know.

ghost use Rattle.eval_tests.specs.Told.{own_outcome, own_fits};

use crate::texts::first_outputs;
use blob_store::MemKeeper;
use need_eval::{EvalFault, Refusal, Values, evaluate};
use object_name::{Bytes, Many, Name, Trouble, name_of};
use std::alloc::{AllocError, Global};
use std::test::Fail;
use thunk_codec::{Function, Job, Outcome, Runner};

/// The text of a thunk whose function is the object without bytes, and which has one output.
pub const OWN_TEXT: &[u8] =
    b"gg-thunk 1\nf V47DEQpj8HBSa-_TImW-5JCeuQeRkm5NMpJWZG3hSuFU00000000\no 3:out\nend\n";

/// Gives the text of that thunk for each job with one output, and fails else.
#[derive(Drop)]
struct Own;

impl Function for Own {
    ghost outcome = { own_outcome };

    ghost tells = { λ _. Unit {0} };

    ghost fits = { own_fits };
}

impl Runner for Own {
    ghost faults = { λ _. 0 };

    fn run(&mut self, alloc: Global, job: &Job) -> Result<Outcome, Trouble> {
        let [_] = job.outputs.as_slice() else {
            return Ok(Outcome::Failed(1));
        };
        let mut outputs = Many::new(alloc);
        outputs.push(Bytes::from_slice(alloc, OWN_TEXT)?)?;
        Ok(Outcome::Done(outputs))
    }
}

/// A keeper that holds that thunk and its function.
pub fn holding(alloc: Global, name: Name) -> Result<MemKeeper, AllocError> {
    let mut objects = Many::new(alloc);
    if let Ok(empty) = name_of(b"") {
        objects.push((empty, Bytes::new(alloc)))?;
    }
    objects.push((name, Bytes::from_slice(alloc, OWN_TEXT)?))?;
    MemKeeper::new(alloc, objects, Many::new(alloc), Many::new(alloc))
}

/// Whether the budget of 3 steps was spent at the thunk of this name.
fn is_spent(answer: &Result<Values, EvalFault>, name: Name) -> bool {
    match answer {
        Err(EvalFault::Refused(refusal)) => *refusal == Refusal::Spent { name, budget: 3 },
        _ => false,
    }
}

#[test]
fn yields_itself(rt: HostRuntime) -> Result<(), Fail> {
    let Ok(name) = name_of(OWN_TEXT) else {
        return Ok(());
    };
    let mut keeper = holding(rt.alloc(), name)?;
    let refs = first_outputs(rt.alloc(), &[name])?;
    let answer = evaluate(rt.alloc(), &mut keeper, refs, 3, 0, &mut Own);
    assert!(rt; is_spent(&answer, name));
    assert_eq!(rt; keeper.puts(rt.alloc())?.as_slice(), [name].as_slice());
    Ok(())
}
