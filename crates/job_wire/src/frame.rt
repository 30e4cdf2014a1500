//! Frames: the contents of messages after their length.

ghost use Rattle.std.specs.Prelude.{◌≡◌, ◌++◌, ◌≤◌, length, drop, OnOk, IfOk};
ghost use Rattle.thunk_codec.specs.Job.{encoded_count};
ghost use Rattle.job_wire.specs.Frame.{Frame, IsJob, IsMessage, contents, frame};
ghost use Rattle.job_wire.specs.Gives.{Gives};
ghost use Rattle.job_wire.specs.Reading.{start_of, reply_of, message_of};
ghost use Rattle.job_wire.specs.declared.message.Message.TheVariants.{Start};

use crate::fault::ReadFault;
use crate::job::{job_of, write_job};
use crate::message::Message;
use crate::number::lease_at;
use crate::outcome::{outcome_of, write_outcome};
use object_name::Bytes;
use std::alloc::{AllocError, Global};
use thunk_codec::Job;

/// A lease and a job.
#[tactic(auto, unfolding(crate::specs::Reading::start_of))]
fn start_of(alloc: Global, bytes: &[u8]) -> Result<Message, ReadFault>
    ensures { Gives (λ message. message) result (start_of bytes.now) }
{
    let (lease, rest) = lease_at(bytes)?;
    let job = job_of(alloc, rest)?;
    Ok(Message::Start(lease, job))
}

/// A lease and an outcome.
#[tactic(auto, unfolding(crate::specs::Reading::reply_of))]
fn reply_of(alloc: Global, bytes: &[u8]) -> Result<Message, ReadFault>
    ensures { Gives (λ message. message) result (reply_of bytes.now) }
{
    let (lease, rest) = lease_at(bytes)?;
    let outcome = outcome_of(alloc, rest)?;
    Ok(Message::Reply(lease, outcome))
}

/// The message whose contents the bytes are, all of them.
#[tactic(auto, unfolding(crate::specs::Reading::message_of))]
pub(crate) fn message_of(alloc: Global, bytes: &[u8]) -> Result<Message, ReadFault>
    ensures { Gives (λ message. message) result (message_of bytes.now) }
{
    match bytes {
        [b'J', rest @ ..] => start_of(alloc, rest),
        [b'R', rest @ ..] => reply_of(alloc, rest),
        [b'B'] => Ok(Message::Bye),
        _ => Err(ReadFault::Bad),
    }
}

/// Appends the contents of the frame of a job.
#[tactic(auto, unfolding(crate::specs::Frame::contents))]
fn write_start(lease: u64, job: &Job, out: &mut Bytes) -> Result<(), AllocError>
    requires { IsJob job.now }
    ensures { OnOk result (out.new ≡ out.old ++ contents (Start lease job.now)) }
{
    out.append(b"J")?;
    out.append(&lease.to_be_bytes())?;
    write_job(job, out)
}

/// Appends the contents of the frame of a message.
#[tactic(auto, unfolding(crate::specs::Frame::contents))]
fn write_contents(message: &Message, out: &mut Bytes) -> Result<(), AllocError>
    requires { IsMessage message.now }
    ensures { OnOk result (out.new ≡ out.old ++ contents message.now) }
{
    match message {
        Message::Start(lease, job) => write_start(*lease, job, out),
        Message::Reply(lease, outcome) => {
            out.append(b"R")?;
            out.append(&lease.to_be_bytes())?;
            write_outcome(outcome, out)
        }
        Message::Bye => out.append(b"B"),
    }
}

/// Puts a count in the place of the first bytes.
fn set_front(bytes: &mut [u8], number: u32)
    requires { 4 ≤ length bytes.old }
    ensures { bytes.new ≡ encoded_count number ++ drop 4 bytes.old }
{
    bytes[..4].copy_from_slice(&number.to_be_bytes());
}

/// The same for bytes that may grow.
fn set_count(out: &mut Bytes, number: u32)
    requires { 4 ≤ length out.old }
    ensures { out.new ≡ encoded_count number ++ drop 4 out.old }
{
    set_front(out.0.as_mut_slice(), number);
}

/// The frame of a message.
pub fn encode_frame(alloc: Global, message: &Message) -> Result<Bytes, AllocError>
    requires { IsMessage message.now }
    ensures text { IfOk result (λ bytes. bytes ≡ frame message.now) }
    // No other message has it.
    ensures frame { IfOk result (λ bytes. Frame bytes message.now) }
{
    let mut out = Bytes::from_slice(alloc, &[0, 0, 0, 0])?;
    write_contents(message, &mut out)?;
    let len = (out.len() - 4) as u32;
    set_count(&mut out, len);
    Ok(out)
}

/// The frame of a job under the number of its lease, for whoever has the job only by a reference.
pub fn encode_start(alloc: Global, lease: u64, job: &Job) -> Result<Bytes, AllocError>
    requires { IsJob job.now }
    ensures { IfOk result (λ bytes. bytes ≡ frame (Start lease job.now)) }
{
    let mut out = Bytes::from_slice(alloc, &[0, 0, 0, 0])?;
    write_start(lease, job, &mut out)?;
    let len = (out.len() - 4) as u32;
    set_count(&mut out, len);
    Ok(out)
}
