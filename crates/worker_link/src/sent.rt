//! Jobs that were sent.

ghost use Rattle.std.specs.Prelude.{◌≡◌, Some, None};
ghost use Rattle.std.specs.Option.{option_map};
ghost use Rattle.worker_link.specs.Sent.{has_lease, only_job, is_latest};

use std::marker::Model;
use std::sync::Arc;
use thunk_codec::Job;

/// A job that was sent, under the number of its lease. Contracts see both as a pair.
#[derive(Drop)]
pub struct Sent {
    pub lease: u64,
    pub job: Arc<Job>,
}

impl Model for Sent {
    ghost use Rattle.std.specs.Prelude.{ℕ};
    ghost use Rattle.std.specs.Arc.{arc_value};
    ghost use Rattle.thunk_codec.specs.declared.job.Job.{Job};

    ghost Value = { ℕ × Job };

    ghost view = { λ s. (s.lease, arc_value s.job) };
}

impl Sent {
    /// The lease.
    pub fn lease(&self) -> u64
        ensures { result ≡ self.now.0 }
    {
        self.lease
    }

    /// The job.
    pub fn job(&self) -> &Job
        ensures { result.now ≡ self.now.1 }
    {
        &self.job
    }
}

/// Whether a job was sent under a lease.
fn has_lease(sent: &[Sent], lease: u64) -> bool
    ensures { result ≡ has_lease lease sent.now }
{
    let mut rest = sent;
    'jobs: while let [first, others @ ..] = rest {
        if first.lease() == lease {
            return true;
        }
        rest = others;
    }
    false
}

/// The job of a lease under which exactly one was sent.
pub fn only(sent: &[Sent], lease: u64) -> Option<&Sent>
    ensures { option_map (λ s. s.now.1) result ≡ only_job lease sent.now }
{
    let mut rest = sent;
    'jobs: while let [first, others @ ..] = rest {
        if first.lease() == lease {
            if has_lease(others, lease) {
                return None;
            }
            return Some(first);
        }
        rest = others;
    }
    None
}

/// Whether a lease is that of the job that was sent last.
pub(crate) fn is_latest(sent: &[Sent], lease: u64) -> bool
    ensures { result ≡ is_latest sent.now lease }
{
    match sent.last() {
        Some(last) => last.lease() == lease,
        None => false,
    }
}
