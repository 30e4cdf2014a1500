//! What is kept of a job.

ghost use Rattle.std.specs.Prelude.{◌≡◌, IsTrue};
ghost use Rattle.std.specs.List.{list_all};
ghost use Rattle.object_name.specs.Name.{name_of};
ghost use Rattle.thunk_codec.specs.Path.{is_path};
ghost use Rattle.job_wire.specs.Frame.{IsJob};

use crate::reply::Reply;
use job_wire::{Answer, Sealed};
use need_eval::Prepared;
use object_name::{Bytes, Name, name_of};
use std::alloc::{AllocError, Global};
use std::marker::{Model, PhantomData};
use std::sync::Arc;
use thunk_codec::{Function, Job, Outcome, Path, look_at_paths};

/// The name of the text of a job that is prepared.
pub(crate) fn name_of_text(prepared: &Prepared) -> Name
    ensures { result ≡ name_of prepared.now.text }
{
    let Ok(name) = name_of(prepared.text.as_slice()) else {
        unreachable!();
    };
    name
}

/// Looks at the paths of some inputs, whose type says of each that it is normal. It does nothing.
fn look_at_inputs(inputs: &[(Path, Bytes)])
    ensures { IsTrue (list_all (λ input. is_path input.0) inputs.now) }
{
    'inputs: for input in inputs {
        let _text = input.0.text();
    }
}

/// Looks at a job that is prepared: it has an encoding. It does nothing.
fn look_at_job(prepared: &Prepared)
    ensures { IsJob prepared.now.job }
{
    look_at_inputs(prepared.job.inputs.as_slice());
    look_at_paths(prepared.job.outputs.as_slice());
}

/// A job that was offered, and what came of it. Contracts see a `Task`.
#[derive(Drop)]
pub(crate) struct Entry<F: Function> {
    text: Bytes,
    name: Name,
    job: Arc<Job>,
    outcome: Option<Outcome>,
    answer: Option<Answer>,
    of: PhantomData<F>,
}

impl<F: Function> Model for Entry<F> {
    ghost use Rattle.std.specs.Prelude.{◌≡◌};
    ghost use Rattle.std.specs.Arc.{arc_value};
    ghost use Rattle.object_name.specs.Name.{name_of};
    ghost use Rattle.force_core.specs.Book.{Task, IsTask};

    ghost Value = { Task };

    ghost view = { λ e. record { text = e.text; job = arc_value e.job; outcome = e.outcome; answer = e.answer } };

    ghost invariant = { λ e. (e.name ≡ name_of e.text) × IsTask F.tells F.outcome (record { text = e.text; job = arc_value e.job; outcome = e.outcome; answer = e.answer }) };
}

impl<F: Function> Entry<F> {
    ghost use Rattle.std.specs.Prelude.{◌≡◌, ◌≤◌, false, length, IfSome, IfOk, if◌then◌else◌};
    ghost use Rattle.force_core.specs.Known.{is_untaken, is_known, untaken_size};
    ghost use Rattle.object_name.specs.Name.{max_size};
    ghost use Rattle.thunk_codec.specs.Job.{job_size, max_job};
    ghost use Rattle.std.specs.Option.{option_map, is_some};
    ghost use Rattle.std.specs.Arc.{arc_value};
    ghost use Rattle.object_name.specs.Name.{name_of};
    ghost use Rattle.job_wire.specs.Answer.{answer_of};
    ghost use Rattle.job_wire.specs.Frame.{IsJob};
    ghost use Rattle.force_core.specs.Book.{Task, taken, offered, IsOutcome};
    ghost use Rattle.force_core.specs.Reply.{Replied, Agrees};

    /// A job that is offered now.
    pub(crate) fn new(alloc: Global, name: Name, prepared: Prepared) -> Result<Entry<F>, AllocError>
        requires { name ≡ name_of prepared.text }
        ensures { IfOk result (λ e. e ≡ offered prepared.text prepared.job) }
    {
        look_at_job(&prepared);
        let job = Arc::new(alloc, prepared.job)?;
        Ok(Entry {
            text: prepared.text,
            name,
            job,
            outcome: None,
            answer: None,
            of: PhantomData,
        })
    }

    /// Whether its outcome was not taken.
    pub(crate) fn is_untaken(&self) -> bool
        ensures { result ≡ is_untaken self.now }
    {
        self.outcome.is_some() || self.answer.is_none()
    }

    /// Whether it is this job under this text, and its outcome was not taken.
    pub(crate) fn is_known(&self, prepared: &Prepared) -> bool
        ensures { result ≡ is_known prepared.now.text prepared.now.job self.now }
    {
        if !self.is_untaken() {
            return false;
        }
        if self.text != prepared.text {
            return false;
        }
        self.job.is_same(&prepared.job)
    }

    /// The length of the job's encoding.
    pub(crate) fn size(&self) -> u64
        ensures size { result ≡ job_size self.now.job }
        ensures small { result ≤ max_job }
    {
        self.job.size()
    }

    /// How much it counts among the jobs whose outcomes were not taken.
    pub(crate) fn untaken_count(&self) -> usize
        ensures { result ≡ (if is_untaken self.now then 1 else 0) }
    {
        if self.is_untaken() { 1 } else { 0 }
    }

    /// How many bytes it counts among them.
    pub(crate) fn untaken_size(&self) -> u64
        ensures size { result ≡ untaken_size self.now }
        ensures small { result ≤ max_job }
    {
        if self.is_untaken() { self.size() } else { 0 }
    }

    pub(crate) fn name(&self) -> Name
        ensures { result ≡ name_of self.now.text }
    {
        self.name
    }

    pub(crate) fn job(&self) -> &Arc<Job>
        ensures job { arc_value result.now ≡ self.now.job }
        ensures is { IsJob self.now.job }
    {
        &self.job
    }

    pub(crate) fn answer(&self) -> Option<&Answer>
        ensures answer { option_map (λ a. a.now) result ≡ self.now.answer }
        ensures told { IfSome result (λ a. F.tells self.now.job → a.now ≡ answer_of (F.outcome self.now.job)) }
    {
        self.answer.as_ref()
    }

    pub(crate) fn outcome(&self) -> Option<&Outcome>
        ensures outcome { option_map (λ o. o.now) result ≡ self.now.outcome }
        ensures is { IfSome result (λ o. IsOutcome F.tells F.outcome self.now.job o.now) }
    {
        self.outcome.as_ref()
    }

    /// Whether its outcome is there to be taken.
    pub(crate) fn has_outcome(&self) -> bool
        ensures { result ≡ is_some self.now.outcome }
    {
        self.outcome.is_some()
    }

    /// Hands the outcome out.
    pub(crate) fn take(&mut self) -> Option<Outcome>
        ensures taken { self.new ≡ taken self.old }
        ensures outcome { result ≡ self.old.outcome }
        ensures is { IfSome result (λ o. IsOutcome F.tells F.outcome self.old.job o) }
        ensures gone { IfSome result (λ o. is_untaken self.new ≡ false) }
    {
        self.outcome.take()
    }

    /// Keeps the first outcome, and compares the answers of later ones with its.
    pub(crate) fn reply(&mut self, sealed: Sealed) -> Reply
        requires { IsOutcome F.tells F.outcome self.old.job sealed }
        ensures replied { Replied self.old self.new sealed result }
        ensures agrees { F.tells self.old.job → Agrees result }
    {
        let (outcome, answer) = sealed.into_parts();
        match &self.answer {
            None => {}
            Some(first) => {
                if first.is_same(&answer) {
                    return Reply::Again;
                }
                return Reply::Differs { second: answer };
            }
        }
        self.outcome = Some(outcome);
        self.answer = Some(answer);
        Reply::First
    }
}
