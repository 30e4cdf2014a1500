//! How forcing over links ends: what the call gives back, and the line of its fault.

ghost use Rattle.std.specs.Prelude.{◌≡◌, ◌⊎◌, None, Some};
ghost use Rattle.object_name.specs.Streams.{AppendsPrefix};
ghost use Rattle.gg_cli.specs.Comes.{SaysWhole};
ghost use Rattle.gg_cli.specs.Linked.{differs_line, lost_line};
ghost use Rattle.gg_cli.specs.LinkedSteps.{SpeaksOver};

use crate::endings::say;
use crate::linked_fault::LinkedFault;
use crate::pieces::Piece::{Spelled, Text};
use crate::pieces::write_line;
use crate::status::Status;
use force_pool::Report;
use job_wire::Answer;
use object_name::{Many, Name, Sink, Trouble};
use std::alloc::Global;

/// What a call over links gives back.
#[derive(Drop)]
pub struct ForceEnd<L> {
    /// How the command line ended.
    pub status: Status,
    /// What happened to the jobs.
    pub report: Report,
    /// The links that were given, in order.
    pub links: Many<L>,
    /// The name of a job's resolved text and two outcomes of it that differ, where the status is that.
    pub differs: Option<(Name, Answer, Answer)>,
}

/// Says that two outcomes of a job differ, and answers them where memory sufficed for that.
fn say_differs<E: Sink>(
    alloc: Global,
    err: &mut E,
    resolved: Name,
    first: Answer,
    second: Answer,
) -> (Status, Option<(Name, Answer, Answer)>)
    ensures { ((result.0 ≡ Status.Differs) × (result.1 ≡ Some (resolved, first, second)) × SaysWhole (differs_line resolved) (E.written err.old) (E.written err.new) (E.faults err.old) (E.faults err.new))
        ⊎ ((result.0 ≡ Status.Memory) × (result.1 ≡ None) × AppendsPrefix (E.written err.old) (E.written err.new) (differs_line resolved)) }
{
    match write_line(
        alloc,
        err,
        &[Text(b"two outcomes of job "), Spelled(resolved)],
    ) {
        Err(Trouble::Memory) => (Status::Memory, None),
        _ => (Status::Differs, Some((resolved, first, second))),
    }
}

/// Says that the links are lost.
fn say_lost<E: Sink>(alloc: Global, err: &mut E) -> Status
    ensures { ((result ≡ Status.LinksLost) × SaysWhole lost_line (E.written err.old) (E.written err.new) (E.faults err.old) (E.faults err.new))
        ⊎ ((result ≡ Status.Memory) × AppendsPrefix (E.written err.old) (E.written err.new) lost_line) }
{
    match write_line(alloc, err, &[Text(b"links lost")]) {
        Err(Trouble::Memory) => Status::Memory,
        _ => Status::LinksLost,
    }
}

/// Says the line of a fault. Answers the status that stands then, and the outcomes that differ where it is that.
pub(crate) fn say_linked<E: Sink>(
    alloc: Global,
    err: &mut E,
    fault: LinkedFault,
) -> (Status, Option<(Name, Answer, Answer)>)
    ensures { SpeaksOver fault result.0 result.1 (E.written err.old) (E.written err.new) (E.faults err.old) (E.faults err.new) }
{
    match fault {
        LinkedFault::Top(fault) => (say(alloc, err, &fault), None),
        LinkedFault::Differs {
            resolved,
            first,
            second,
        } => say_differs(alloc, err, resolved, first, second),
        LinkedFault::LinksLost => (say_lost(alloc, err), None),
    }
}
