//! What is known of a job and of a lease.

ghost use Rattle.std.specs.Prelude.{◌≡◌};
ghost use Rattle.lease_table.specs.Table.{is_idle, may_copy};

/// A job.
#[derive(Clone, Copy, Debug)]
pub struct Row {
    /// Whether its outcome came.
    pub answered: bool,
    /// How many leases of it were issued and not lost.
    pub running: u32,
    /// Its latest lease.
    pub latest: u64,
}

impl Row {
    /// Whether no outcome came, and no lease is open.
    pub(crate) fn is_idle(&self) -> bool
        ensures { result ≡ is_idle self.now }
    {
        !self.answered && self.running == 0
    }

    /// Whether no outcome came, and there is a lease to be had.
    pub(crate) fn may_copy(&self, copies: u32) -> bool
        ensures { result ≡ may_copy copies self.now }
    {
        !self.answered && self.running < copies
    }
}

/// A lease of a job.
#[derive(Clone, Copy, Debug)]
pub struct Lease {
    pub job: u64,
    pub lost: bool,
}
