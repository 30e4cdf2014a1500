//! The jobs among which the next lease is looked for.

ghost use Rattle.std.specs.Prelude.{◌≡◌, ◌<◌, ◌≤◌, ◌+◌, ◌==◌, None, length, drop, position, vec_capacity};
ghost use Rattle.std.specs.Option.{option_map};
ghost use Rattle.lease_table.specs.Pending.{row_at, without};
ghost use Rattle.lease_table.specs.Table.{better, is_idle, oldest};

use crate::row::Row;
use std::alloc::{AllocError, Global};
use std::marker::Model;

/// The jobs without an outcome below a mark: no lease of a job from the mark on is out.
#[derive(Drop)]
pub(crate) struct Pending {
    jobs: Vec<u64>,
    mark: usize,
    room: usize,
}

impl Model for Pending {
    ghost use Rattle.std.specs.Prelude.{◌≤◌, vec_capacity};
    ghost use Rattle.lease_table.specs.Pending.{PendingJobs};

    ghost Value = { PendingJobs };

    ghost view = { λ p. record { jobs = p.jobs.items; mark = p.mark; room = p.room } };

    ghost invariant = { λ p. p.room ≤ vec_capacity p.jobs };
}

impl Pending {
    ghost use Rattle.std.specs.Prelude.{◌≡◌, ◌<◌, ◌≤◌, [], None, OnOk, OnErr, length, position};
    ghost use Rattle.std.specs.Option.{option_map};
    ghost use Rattle.lease_table.specs.Pending.{IsPending, roomier, passed, settled};
    ghost use Rattle.lease_table.specs.Table.{is_idle, oldest};

    pub(crate) fn new(alloc: Global) -> Pending
        ensures { result ≡ record { jobs = []; mark = 0; room = 0 } }
    {
        Pending {
            jobs: Vec::new(alloc),
            mark: 0,
            room: 0,
        }
    }

    /// Makes room for a job more.
    pub(crate) fn reserve(&mut self) -> Result<(), AllocError>
        requires { length self.old.jobs ≤ self.old.room }
        ensures ok { OnOk result (self.new ≡ roomier self.old) }
        ensures err { OnErr result (self.new ≡ self.old) }
    {
        let Some(room) = self.room.checked_add(1) else {
            return Err(AllocError);
        };
        self.jobs.reserve(room - self.jobs.len())?;
        self.room = room;
        Ok(())
    }

    /// Sets the mark past a job that gets a lease.
    pub(crate) fn pass(&mut self, job: u64)
        requires room { length self.old.jobs ≤ self.old.mark }
        requires job { job < self.old.room }
        ensures { self.new ≡ passed self.old job }
    {
        if (job as usize) < self.mark {
            return;
        }
        self.jobs.push_reserved(job);
        self.mark = job as usize + 1;
    }

    /// Takes a job out whose outcome came.
    pub(crate) fn settle(&mut self, job: u64)
        ensures { self.new ≡ settled self.old job }
    {
        take_out(&mut self.jobs, job);
    }

    /// The least job that is idle.
    pub(crate) fn first_idle(&self, rows: &[Row]) -> Option<u64>
        requires { IsPending self.now rows.now }
        ensures { result ≡ position is_idle rows.now }
    {
        let mut jobs = self.jobs.as_slice();
        'jobs: while let [job, rest @ ..] = jobs {
            if row_of(rows, *job).is_idle() {
                return Some(*job);
            }
            jobs = rest;
        }
        first_idle_from(rows, self.mark)
    }

    /// The job with a lease to be had whose latest lease is oldest, where none is idle.
    pub(crate) fn oldest(&self, rows: &[Row], copies: u32) -> Option<u64>
        requires pending { IsPending self.now rows.now }
        requires busy { position is_idle rows.now ≡ None }
        ensures { result ≡ option_map (λ best. best.0) (oldest copies None 0 rows.now) }
    {
        let mut best: Option<(u64, u64)> = None;
        let mut jobs = self.jobs.as_slice();
        'jobs: while let [job, rest @ ..] = jobs {
            best = better(copies, best, *job, &row_of(rows, *job));
            jobs = rest;
        }
        match best {
            Some((job, _)) => Some(job),
            None => None,
        }
    }
}

/// The place of a job among some.
fn place_of(jobs: &[u64], job: u64) -> Option<usize>
    ensures { result ≡ position (λ other. other == job) jobs.now }
{
    jobs.iter().position(|other| *other == job)
}

/// Takes a job out of some.
fn take_out(jobs: &mut Vec<u64>, job: u64)
    ensures items { jobs.new.items ≡ without job jobs.old.items }
    ensures capacity { vec_capacity jobs.new ≡ vec_capacity jobs.old }
{
    match place_of(jobs.as_slice(), job) {
        Some(place) => {
            jobs.remove(place);
        }
        None => {}
    }
}

/// The row of a job.
fn row_of(rows: &[Row], job: u64) -> Row
    requires { job < length rows.now }
    ensures { result ≡ row_at rows.now job }
{
    rows[job as usize]
}

/// The place of the first idle job.
fn idle_in(rows: &[Row]) -> Option<usize>
    ensures { result ≡ position is_idle rows.now }
{
    rows.iter().position(|row| row.is_idle())
}

/// The first idle job from a mark on.
fn first_idle_from(rows: &[Row], mark: usize) -> Option<u64>
    requires { mark ≤ length rows.now }
    ensures { result ≡ option_map (λ past. mark + past) (position is_idle (drop mark rows.now)) }
{
    match idle_in(&rows[mark..]) {
        Some(past) => Some((mark + past) as u64),
        None => None,
    }
}

/// The best so far and this job.
fn better(copies: u32, best: Option<(u64, u64)>, id: u64, row: &Row) -> Option<(u64, u64)>
    ensures { result ≡ better copies best id row.now }
{
    if !row.may_copy(copies) {
        return best;
    }
    match best {
        None => Some((id, row.latest)),
        Some((_, latest)) => {
            if row.latest < latest {
                Some((id, row.latest))
            } else {
                best
            }
        }
    }
}
