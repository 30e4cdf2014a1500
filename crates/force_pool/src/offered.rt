//! Thunks whose jobs were offered ahead.

use crate::desk::Desk;
use crate::hall::Hall;
use crate::limits::Limits;
use job_wire::Answer;
use object_name::Name;
use std::alloc::{AllocError, Global};
use std::sync::Wait;
use std::sync::ledger::Ledger;
use thunk_codec::Function;

/// A thunk, and the number of its job in the book.
#[derive(Clone, Copy, Debug)]
pub(crate) struct Offered {
    pub(crate) thunk: Name,
    pub(crate) id: u64,
}

/// What is there of the answers of some jobs.
#[derive(Drop)]
pub(crate) struct Answers {
    /// How many first outcomes the book had.
    pub(crate) firsts: u64,
    /// Those with answers.
    pub(crate) answered: Vec<(Offered, Answer)>,
    /// Those without.
    pub(crate) waiting: Vec<Offered>,
}

/// Looks for the answers of some jobs.
fn look<F: Function, S: Limits, P: Ledger, O: Ledger>(
    alloc: Global,
    desk: &Desk<F, S, P, O>,
    offered: &[Offered],
) -> Result<Answers, AllocError> {
    let mut answered = Vec::new(alloc);
    let mut waiting = Vec::new(alloc);
    'offered: for one in offered {
        match desk.answer(alloc, one.id)? {
            Some(answer) => answered.push((*one, answer))?,
            None => waiting.push(*one)?,
        }
    }
    Ok(Answers {
        firsts: desk.firsts(),
        answered,
        waiting,
    })
}

/// The answers of some jobs, as far as they are there now.
pub(crate) fn answers_of<R: Wait, F: Function, S: Limits, P: Ledger, O: Ledger>(
    rt: &R,
    alloc: Global,
    hall: &Hall<F, S, P, O>,
    offered: &[Offered],
) -> Result<Answers, AllocError> {
    let desk = hall.desk.lock(rt);
    look(alloc, &desk, offered)
}
