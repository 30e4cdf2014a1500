//! The table of leases.

ghost use Rattle.std.specs.Prelude.{◌&&◌, nat_lt, ◌≡◌, ◌≤◌, ◌<◌, [], true, length, Some, None, IfOk, OnOk, OnErr};
ghost use Rattle.lease_table.specs.Table.{choice, added, issued, lost, answered, is_open, job_of};

use crate::pending::Pending;
use crate::row::{Lease, Row};
use std::alloc::{AllocError, Global};
use std::marker::Model;

/// Which jobs there are, and which leases of them were issued and lost.
#[derive(Drop)]
pub struct Leases {
    rows: Vec<Row>,
    leases: Vec<Lease>,
    copies: u32,
    losses: u32,
    /// How many leases there may be in all.
    most: usize,
    pending: Pending,
}

impl Model for Leases {
    ghost use Rattle.std.specs.Prelude.{◌≤◌, ◌+◌, vec_len, vec_capacity};
    ghost use Rattle.lease_table.specs.Pending.{IsPending};
    ghost use Rattle.lease_table.specs.Table.{Table, leases_left};

    ghost Value = { Table };

    ghost view = { λ l. record { rows = l.rows.items; leases = l.leases.items; copies = l.copies; losses = l.losses } };

    ghost invariant = { λ l. (vec_len l.leases + leases_left (record { rows = l.rows.items; leases = l.leases.items; copies = l.copies; losses = l.losses }) ≤ l.most) × (l.most ≤ vec_capacity l.leases)
        × (1 ≤ l.copies) × (l.copies ≤ 4) × IsPending l.pending l.rows.items };
}

impl Leases {
    pub fn new(alloc: Global, losses: u32, copies: u32) -> Result<Leases, AllocError>
        requires losses { losses ≤ 1088 }
        requires copies { (1 ≤ copies) × (copies ≤ 4) }
        ensures { IfOk result (λ t. t ≡ record { rows = []; leases = []; copies = copies; losses = losses }) }
    {
        let most = losses as usize;
        let mut leases = Vec::new(alloc);
        leases.reserve(most)?;
        Ok(Leases {
            rows: Vec::new(alloc),
            leases,
            copies,
            losses,
            most,
            pending: Pending::new(alloc),
        })
    }

    /// Numbers a job, with room for its leases.
    pub fn add(&mut self, alloc: Global) -> Result<u64, AllocError>
        ensures ok { OnOk result (self.new ≡ added self.old) }
        ensures number { IfOk result (λ id. id ≡ length self.old.rows) }
        ensures err { OnErr result (self.new ≡ self.old) }
    {
        let id = self.rows.len();
        let Some(most) = self.most.checked_add(self.copies as usize) else {
            return Err(AllocError);
        };
        self.leases.reserve(most - self.leases.len())?;
        self.rows.reserve(1)?;
        self.pending.reserve()?;
        self.rows.push_reserved(Row {
            answered: false,
            running: 0,
            latest: 0,
        });
        self.most = most;
        Ok(id as u64)
    }

    /// The job that gets the next lease.
    pub fn choose(&self) -> Option<u64>
        ensures { result ≡ choice self.now.copies self.now.rows }
    {
        let rows = self.rows.as_slice();
        match self.pending.first_idle(rows) {
            Some(job) => Some(job),
            None => self.pending.oldest(rows, self.copies),
        }
    }

    /// Numbers a lease of the job that was chosen.
    pub fn issue(&mut self, job: u64) -> u64
        requires { choice self.old.copies self.old.rows ≡ Some job }
        ensures issued { self.new ≡ issued self.old job }
        ensures number { result ≡ length self.old.leases }
    {
        let lease = self.leases.len() as u64;
        let row = self.rows[job as usize];
        self.rows[job as usize] = Row {
            answered: row.answered,
            running: row.running + 1,
            latest: lease,
        };
        self.leases.push_reserved(Lease { job, lost: false });
        self.pending.pass(job);
        lease
    }

    /// The job of a lease.
    pub fn job_of(&self, lease: u64) -> Option<u64>
        ensures { result ≡ job_of self.now lease }
    {
        match self.leases.get(lease as usize) {
            Some(found) => Some(found.job),
            None => None,
        }
    }

    /// Whether a lease is open, and may be lost.
    pub fn may_lose(&self, lease: u64) -> bool
        ensures { result ≡ (is_open self.now lease && nat_lt 0 self.now.losses) }
    {
        let Some(found) = self.leases.get(lease as usize) else {
            return false;
        };
        let Some(row) = self.rows.get(found.job as usize) else {
            return false;
        };
        if found.lost {
            return false;
        }
        if row.answered {
            return false;
        }
        0 < self.losses
    }

    /// Enters a loss.
    pub fn lose(&mut self, lease: u64)
        requires open { is_open self.old lease ≡ true }
        requires room { 1 ≤ self.old.losses }
        ensures { self.new ≡ lost self.old lease }
    {
        let job = self.leases[lease as usize].job;
        self.leases[lease as usize] = Lease { job, lost: true };
        let row = self.rows[job as usize];
        self.rows[job as usize] = Row {
            answered: row.answered,
            running: row.running.saturating_sub(1),
            latest: row.latest,
        };
        self.losses -= 1;
    }

    /// Enters an outcome.
    pub fn answer(&mut self, job: u64)
        requires { job < length self.old.rows }
        ensures { self.new ≡ answered self.old job }
    {
        let row = self.rows[job as usize];
        self.rows[job as usize] = Row {
            answered: true,
            running: row.running,
            latest: row.latest,
        };
        self.pending.settle(job);
    }
}
