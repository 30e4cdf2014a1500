//! The job that a walker waits for.

ghost use Rattle.std.specs.Prelude.{◌≤◌, length, IsTrue};
ghost use Rattle.object_name.specs.Name.{max_size};
ghost use Rattle.thunk_codec.specs.Job.{job_keeps_rules, job_size, max_job};

use object_name::{Bytes, TryCopy};
use std::alloc::{AllocError, Global};
use thunk_codec::Job;

/// A job that is wanted next, and the text of the thunk that it is the job of, whose references are all values. Whatever keeper the
/// objects came from, both are within their limits and the job keeps the rules of a job.
#[derive(Debug, Drop)]
pub struct Prepared {
    pub text: Bytes,
    pub job: Job,
    ghost small_text: { length text ≤ max_size },
    ghost small_job: { job_size job ≤ max_job },
    ghost rules: { IsTrue (job_keeps_rules job) },
}

impl TryCopy for Prepared {
    fn copy(&self, alloc: Global) -> Result<Self, AllocError> {
        let text = self.text.copy(alloc)?;
        let job = self.job.copy(alloc)?;
        Ok(Prepared { text, job })
    }
}
