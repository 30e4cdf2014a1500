//! Calls of a book.

use force_core::Need;

/// A call of a book.
#[derive(Clone, Copy)]
pub enum Call<'a> {
    /// Offers the job of a word.
    Offer { word: &'a str, need: Need },
    /// Gives a worker the next lease.
    Start { worker: u32 },
    /// Enters that the job of a lease failed, with a status from 1 to 204.
    Reply { lease: u64, status: u8 },
    /// Enters a loss, where there may be one.
    Lose { lease: u64 },
    /// Closes the book.
    Close,
    /// Hands out the outcome of a job.
    Take { id: u64 },
    /// Asks for the answer of a job.
    Answer { id: u64 },
    /// Asks for the number under which the job of a word is known.
    Find { word: &'a str },
    /// Asks how many equal answers came again.
    Agains,
}
