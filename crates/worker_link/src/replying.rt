//! Replies that come as frames.

ghost use Rattle.std.specs.Prelude.{◌≡◌, ◌≤◌, ◌+◌, ◌↔◌, ◌⊎◌, length, IsTrue, IsNone, IfOk, IfSome, IsErrOf};
ghost use Rattle.std.specs.Io.KnownBytes.{Consumes};
ghost use Rattle.object_name.specs.Causes.{Rose};
ghost use Rattle.thunk_codec.specs.Outcome.{Fits};
ghost use Rattle.job_wire.specs.declared.message.Message.TheVariants.{Reply};
ghost use Rattle.job_wire.specs.Frame.{frame};
ghost use Rattle.worker_link.specs.Link.{IsReply};
ghost use Rattle.worker_link.specs.Stream.{none_told, some_outcome, input_of, IsNoReply, IsNoInput};

use crate::feeding::{FeedFault, feed_more};
use crate::sent::Sent;
use job_wire::{CutFault, Cutter, Message, fit_together};
use object_name::{Source, Trouble};
use std::alloc::Global;
use thunk_codec::{Job, Outcome};

/// Whether an outcome fits a job.
fn fits(job: &Job, outcome: &Outcome) -> bool
    ensures { IsTrue result ↔ Fits job.now outcome.now }
{
    match outcome {
        Outcome::Done(outputs) => {
            if outputs.len() != job.outputs.len() {
                return false;
            }
            fit_together(outputs.as_slice())
        }
        Outcome::Failed(status) => 1 <= *status && *status <= 204,
    }
}

/// Whether a job was sent under a lease that an outcome fits.
fn is_reply(sent: &[Sent], lease: u64, outcome: &Outcome) -> bool
    ensures { IsTrue result ↔ IsReply none_told some_outcome sent.now lease outcome.now }
{
    let mut rest = sent;
    'jobs: while let [first, others @ ..] = rest {
        if first.lease() == lease {
            if fits(first.job(), outcome) {
                return true;
            }
        }
        rest = others;
    }
    false
}

/// The reply on a job that was sent, where a message is one.
fn reply_in(sent: &[Sent], message: Message) -> Option<(u64, Outcome)>
    ensures some { IfSome result (λ r. (message ≡ Reply r.0 r.1) × IsReply none_told some_outcome sent.now r.0 r.1) }
    ensures none { IsNone result → IsNoReply sent.now message }
{
    match message {
        Message::Reply(lease, outcome) => {
            if !is_reply(sent, lease, &outcome) {
                return None;
            }
            Some((lease, outcome))
        }
        Message::Start(_, _) => None,
        Message::Bye => None,
    }
}

/// The reply whose frame comes next, on a job that was sent.
pub(crate) fn next_reply<S: Source>(
    alloc: Global,
    sent: &[Sent],
    cutter: &mut Cutter,
    source: &mut S,
) -> Result<(u64, Outcome), Trouble>
    ensures taken { IfOk result (λ r. Consumes (input_of cutter.old (S.left source.old)) (input_of cutter.new (S.left source.new)) (frame (Reply r.0 r.1))) }
    ensures at { IfOk result (λ r. cutter.new.at ≡ cutter.old.at + length (frame (Reply r.0 r.1))) }
    ensures reply { IfOk result (λ r. IsReply none_told some_outcome sent.now r.0 r.1) }
    ensures failed { IsErrOf result Trouble.Failed → Rose (S.faults source.old) (S.faults source.new) ⊎ IfSome (input_of cutter.old (S.left source.old)) (IsNoInput sent.now cutter.old.at) }
    ensures later { S.faults source.old ≤ S.faults source.new }
{
    let _fed = cutter.fed();
    'frames: loop {
        match cutter.next(alloc) {
            Ok(Some(message)) => return reply_in(sent, message).ok_or(Trouble::Failed),
            Ok(None) => match feed_more(cutter, source) {
                Ok(true) => {}
                Ok(false) => return Err(Trouble::Failed),
                Err(FeedFault::SourceFailed) => return Err(Trouble::Failed),
                Err(FeedFault::TooMuch) => return Err(Trouble::Failed),
                Err(FeedFault::Memory) => return Err(Trouble::Memory),
            },
            Err(CutFault::FrameTooLong { .. }) => return Err(Trouble::Failed),
            Err(CutFault::BadFrame { .. }) => return Err(Trouble::Failed),
            Err(CutFault::Memory) => return Err(Trouble::Memory),
        }
    }
}
