//! Jobs of words.

ghost use Rattle.std.specs.Prelude.{◌≡◌, ◌≤◌, [], ◌∷◌, length, IsTrue, IfOk, IfSome};
ghost use Rattle.thunk_codec.specs.Path.{is_path};
ghost use Rattle.book_cases.specs.Words.{word_job, most_word};

use need_eval::Prepared;
use object_name::{Bytes, Many};
use std::alloc::{AllocError, Global};
use thunk_codec::{Job, Path};

/// The most bytes of a word.
pub const MOST_WORD: usize = 64;

/// The job whose function has some bytes, with nothing but one output.
fn job_of(alloc: Global, function: &[u8], output: Path) -> Result<Job, AllocError>
    ensures { IfOk result (λ job. job ≡ word_job function.now output) }
{
    let function = Bytes::from_slice(alloc, function)?;
    let mut outputs = Many::new(alloc);
    outputs.push(output)?;
    Ok(Job {
        function,
        args: Many::new(alloc),
        envs: Many::new(alloc),
        inputs: Many::new(alloc),
        outputs,
    })
}

/// A text and such a job, for a book.
#[tactic(auto, using(crate::proofs::WordJobs::word_rules, crate::proofs::WordJobs::word_size))]
fn prepare(alloc: Global, word: &[u8], output: Path) -> Result<Prepared, AllocError>
    requires word { length word.now ≤ most_word }
    requires output { IsTrue (is_path output) }
    ensures { IfOk result (λ prepared. prepared.text ≡ word.now) }
{
    let text = Bytes::from_slice(alloc, word)?;
    let job = job_of(alloc, word, output)?;
    Ok(Prepared { text, job })
}

/// The job of a word: the word is its text and its function, and it has one output, `out`. A word of more than 64 bytes has none.
pub fn prepared(alloc: Global, word: &str) -> Result<Option<Prepared>, AllocError>
    ensures { IfOk result (λ found. IfSome found (λ prepared. prepared.text ≡ word.now)) }
{
    let word = word.as_bytes();
    if word.len() > MOST_WORD {
        return Ok(None);
    }
    let Some(output) = Path::read(alloc, b"out")? else {
        return Ok(None);
    };
    Ok(Some(prepare(alloc, word, output)?))
}
