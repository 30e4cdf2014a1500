//! The jobs that were offered, by their numbers.

ghost use Rattle.std.specs.Prelude.{◌≡◌, ℕ, true, false, position, IfSome, IfNone};
ghost use Rattle.object_name.specs.Name.{name_of};
ghost use Rattle.force_core.specs.Known.{known};
ghost use Rattle.force_core.specs.Index.{IsIndex, is_known_at, is_among, is_number, first_at};

use crate::entry::Entry;
use crate::index::Index;
use crate::offer::Need;
use crate::reply::Reply;
use job_wire::Sealed;
use need_eval::Prepared;
use object_name::Name;
use std::alloc::{AllocError, Global};
use std::marker::Model;
use std::sync::Arc;
use thunk_codec::{Function, Job, Outcome};

/// The most bytes of encodings of jobs that are offered ahead.
const MOST_AHEAD: u64 = 536_870_912;

/// The most jobs that are offered ahead.
const MOST_JOBS: usize = 256;

/// The most bytes of the encoding of a job.
const MOST_JOB: u64 = 67_108_864;

/// The jobs that were offered, in the order of their numbers.
#[derive(Drop)]
pub(crate) struct Tasks<F: Function> {
    entries: Vec<Entry<F>>,
    /// For how many more there is room.
    room: usize,
    /// How many outcomes were not taken.
    untaken: usize,
    /// The bytes of the encodings of their jobs.
    bytes: u64,
    /// Leads to those jobs.
    index: Index,
}

impl<F: Function> Model for Tasks<F> {
    ghost use Rattle.std.specs.Prelude.{◌≡◌, ◌+◌, ◌*◌, ◌^◌, ◌≤◌, ◌<◌, sum_by, vec_len, vec_capacity};
    ghost use Rattle.std.specs.List.{count_by};
    ghost use Rattle.force_core.specs.Book.{TaskList};
    ghost use Rattle.force_core.specs.Known.{is_untaken, untaken_size};
    ghost use Rattle.force_core.specs.Index.{HasRoom, IsIndex};

    ghost Value = { TaskList };

    ghost view = { λ tasks. record { items = tasks.entries.items; room = tasks.room } };

    ghost invariant = { λ tasks. (vec_len tasks.entries + tasks.room ≤ vec_capacity tasks.entries) × (tasks.bytes + 67108864 * tasks.room < 2 ^ 64) × (tasks.untaken ≡ count_by is_untaken tasks.entries.items) × (tasks.bytes ≡ sum_by untaken_size tasks.entries.items) × IsIndex tasks.index tasks.entries.items × (tasks.room ≤ 1) × (1 ≤ tasks.room → HasRoom tasks.index) };
}

impl<F: Function> Tasks<F> {
    ghost use Rattle.std.specs.Prelude.{◌≡◌, ◌≤◌, ◌<◌, ◌++◌, ◌∷◌, [], true, length, map, IfSome, OnOk, Some, None, slice_get};
    ghost use Rattle.object_name.specs.Name.{name_of};
    ghost use Rattle.std.specs.Option.{option_map};
    ghost use Rattle.std.specs.Arc.{arc_value};
    ghost use Rattle.thunk_codec.specs.Job.{job_size, max_job};
    ghost use Rattle.job_wire.specs.Frame.{IsJob};
    ghost use Rattle.lease_table.specs.Table.{alter};
    ghost use Rattle.force_core.specs.Book.{Task, taken, outcome_at, IsOutcome};
    ghost use Rattle.force_core.specs.Reply.{RepliedAt, Agrees};
    ghost use Rattle.force_core.specs.Known.{known, is_refused, is_untaken};

    pub(crate) fn new(alloc: Global) -> Tasks<F>
        ensures { result ≡ record { items = []; room = 0 } }
    {
        Tasks {
            entries: Vec::new(alloc),
            room: 0,
            untaken: 0,
            bytes: 0,
            index: Index::new(alloc),
        }
    }

    /// What is kept of a job.
    pub(crate) fn get(&self, id: u64) -> Option<&Entry<F>>
        ensures { option_map (λ entry. entry.now) result ≡ slice_get self.now.items id }
    {
        match self.entries.get(id as usize) {
            Some(entry) => Some(entry),
            None => None,
        }
    }

    /// A job that is there.
    pub(crate) fn job(&self, id: u64) -> &Arc<Job>
        requires { id < length self.now.items }
        ensures job { slice_get (map (λ (task : Task). task.job) self.now.items) id ≡ Some (arc_value result.now) }
        ensures is { IsJob (arc_value result.now) }
    {
        self.entries[id as usize].job()
    }

    /// Makes room for a job more.
    pub(crate) fn reserve(&mut self) -> Result<(), AllocError>
        ensures items { self.new.items ≡ self.old.items }
        ensures ok { OnOk result (self.new.room ≡ 1) }
    {
        if self.bytes > u64::MAX - MOST_JOB {
            return Err(AllocError);
        }
        self.entries.reserve(1)?;
        self.index.reserve()?;
        self.room = 1;
        Ok(())
    }

    /// Adds a job, for which there is room.
    pub(crate) fn add(&mut self, entry: Entry<F>)
        requires room { 1 ≤ self.old.room }
        requires untaken { is_untaken entry ≡ true }
        requires new { known entry.text entry.job self.old.items ≡ None }
        ensures { self.new.items ≡ self.old.items ++ entry ∷ [] }
    {
        self.index.add(entry.name(), self.entries.len() as u64);
        self.bytes += entry.size();
        self.untaken += 1;
        self.entries.push_reserved(entry);
        self.room -= 1;
    }

    /// Hands out the outcome of a job.
    pub(crate) fn take(&mut self, id: u64) -> Option<Outcome>
        ensures taken { self.new.items ≡ alter taken self.old.items id }
        ensures outcome { result ≡ outcome_at self.old.items id }
        ensures is { IfSome result (λ o. IfSome (slice_get self.old.items id) (λ t. IsOutcome F.tells F.outcome t.job o)) }
    {
        if id as usize >= self.entries.len() {
            return None;
        }
        let entry = &self.entries[id as usize];
        if !entry.has_outcome() {
            return None;
        }
        self.untaken -= 1;
        self.bytes -= entry.size();
        self.index.take_out(entry.name(), id);
        self.entries[id as usize].take()
    }

    /// Enters an outcome of a job.
    pub(crate) fn reply(&mut self, id: u64, sealed: Sealed) -> Reply
        requires within { id < length self.old.items }
        requires is { IfSome (slice_get self.old.items id) (λ t. IsOutcome F.tells F.outcome t.job sealed) }
        ensures replied { RepliedAt self.old.items self.new.items id sealed result }
        ensures agrees { IfSome (slice_get self.old.items id) (λ t. F.tells t.job → Agrees result) }
    {
        self.entries[id as usize].reply(sealed)
    }

    /// The number under which a job is known.
    pub(crate) fn find(&self, name: Name, prepared: &Prepared) -> Option<u64>
        requires { name ≡ name_of prepared.now.text }
        ensures { result ≡ known prepared.now.text prepared.now.job self.now.items }
    {
        find(&self.index, self.entries.as_slice(), name, prepared)
    }

    /// Whether a job is refused for want of room ahead.
    pub(crate) fn is_refused(&self, job: &Job, need: Need) -> bool
        requires { job_size job.now ≤ max_job }
        ensures { result ≡ is_refused need self.now.items (job_size job.now) }
    {
        match need {
            Need::Now => false,
            Need::Ahead => {
                if self.untaken >= MOST_JOBS {
                    return true;
                }
                self.bytes > MOST_AHEAD - job.size()
            }
        }
    }
}

/// Whether the job of a number is this one, under this text, and its outcome was not taken.
fn is_known_at<F: Function>(entries: &[Entry<F>], id: u64, prepared: &Prepared) -> bool
    ensures { result ≡ is_known_at prepared.now.text prepared.now.job entries.now id }
{
    match entries.get(id as usize) {
        Some(entry) => entry.is_known(prepared),
        None => false,
    }
}

/// The place among some numbers of one under which a job is known.
fn place_of_known<F: Function>(
    numbers: &[u64],
    entries: &[Entry<F>],
    prepared: &Prepared,
) -> Option<usize>
    ensures { result ≡ position (is_known_at prepared.now.text prepared.now.job entries.now) numbers.now }
{
    numbers
        .iter()
        .position(|id| is_known_at(entries, *id, prepared))
}

/// The number under which a job is known, among some.
fn find_among<F: Function>(
    numbers: &[u64],
    entries: &[Entry<F>],
    prepared: &Prepared,
) -> Option<u64>
    ensures found { IfSome result (λ id. is_known_at prepared.now.text prepared.now.job entries.now id ≡ true) }
    ensures none { IfNone result ((id : ℕ) → is_among id numbers.now ≡ true → is_known_at prepared.now.text prepared.now.job entries.now id ≡ false) }
{
    match place_of_known(numbers, entries, prepared) {
        Some(place) => Some(numbers[place]),
        None => None,
    }
}

/// The number that stands by itself under a name, where a job is known under it.
fn find_first<F: Function>(
    index: &Index,
    entries: &[Entry<F>],
    name: Name,
    prepared: &Prepared,
) -> Option<u64>
    ensures found { IfSome result (λ id. is_known_at prepared.now.text prepared.now.job entries.now id ≡ true) }
    ensures none { IfNone result ((id : ℕ) → is_number id (first_at index.now name) ≡ true → is_known_at prepared.now.text prepared.now.job entries.now id ≡ false) }
{
    let id = index.first(name)?;
    if !is_known_at(entries, id, prepared) {
        return None;
    }
    Some(id)
}

/// The number under which a job is known.
fn find<F: Function>(
    index: &Index,
    entries: &[Entry<F>],
    name: Name,
    prepared: &Prepared,
) -> Option<u64>
    requires index { IsIndex index.now entries.now }
    requires name { name ≡ name_of prepared.now.text }
    ensures { result ≡ known prepared.now.text prepared.now.job entries.now }
{
    if let Some(id) = find_first(index, entries, name, prepared) {
        return Some(id);
    }
    find_among(index.others(), entries, prepared)
}
