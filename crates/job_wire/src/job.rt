//! Jobs in frames.

ghost use Rattle.std.specs.Prelude.{◌≡◌, ◌++◌, nat_le, length, OnOk};
ghost use Rattle.std.specs.List.{list_all};
ghost use Rattle.object_name.specs.Name.{max_size};
ghost use Rattle.thunk_codec.specs.Job.{job_encoding, job_keeps_rules};
ghost use Rattle.job_wire.specs.Frame.{IsJob};
ghost use Rattle.job_wire.specs.Gives.{Gives};
ghost use Rattle.job_wire.specs.Reading.{job_at, job_of};

use crate::fault::ReadFault;
use crate::field::Field;
use crate::list::{list_at, write_list};
use object_name::{Bytes, MAX_SIZE};
use std::alloc::{AllocError, Global};
use thunk_codec::{Job, Path, keep_bytes, keep_numbers, keep_orders};

/// The job at the front of some bytes, whatever rules it breaks but that its paths are normal, and the bytes after it.
#[tactic(auto, unfolding(crate::specs::Reading::job_at))]
fn job_at(alloc: Global, bytes: &[u8]) -> Result<(Job, &[u8]), ReadFault>
    ensures { Gives (λ read. (read.0, read.1.now)) result (job_at bytes.now) }
{
    let (function, rest) = Bytes::read(alloc, bytes)?;
    let (args, rest) = list_at::<Bytes>(alloc, rest)?;
    let (envs, rest) = list_at::<(Bytes, Bytes)>(alloc, rest)?;
    let (inputs, rest) = list_at::<(Path, Bytes)>(alloc, rest)?;
    let (outputs, rest) = list_at::<Path>(alloc, rest)?;
    let job = Job {
        function,
        args,
        envs,
        inputs,
        outputs,
    };
    Ok((job, rest))
}

/// Whether each input is within the size of an object.
fn have_object_sizes(inputs: &[(Path, Bytes)]) -> bool
    ensures { result ≡ list_all (λ input. nat_le (length input.1) max_size) inputs.now }
{
    inputs
        .iter()
        .all(|input| input.1.len() <= MAX_SIZE as usize)
}

/// Whether a job keeps the rules on the sizes of objects, and those of a thunk on bytes, numbers and orders.
fn keeps_rules(job: &Job) -> bool
    ensures { result ≡ job_keeps_rules job.now }
{
    job.function.len() <= MAX_SIZE as usize
        && (have_object_sizes(job.inputs.as_slice())
            && (keep_numbers(job.inputs.len(), job.outputs.len())
                && (keep_bytes(job.args.as_slice(), job.envs.as_slice())
                    && keep_orders(
                        job.envs.as_slice(),
                        job.inputs.as_slice(),
                        job.outputs.as_slice(),
                    ))))
}

/// The job whose encoding the bytes are, all of them.
#[tactic(auto, unfolding(crate::specs::Reading::job_of))]
pub(crate) fn job_of(alloc: Global, bytes: &[u8]) -> Result<Job, ReadFault>
    ensures { Gives (λ job. job) result (job_of bytes.now) }
{
    let (job, rest) = job_at(alloc, bytes)?;
    if !rest.is_empty() {
        return Err(ReadFault::Bad);
    }
    if !keeps_rules(&job) {
        return Err(ReadFault::Bad);
    }
    Ok(job)
}

/// Appends the encoding of a job.
pub(crate) fn write_job(job: &Job, out: &mut Bytes) -> Result<(), AllocError>
    requires { IsJob job.now }
    ensures { OnOk result (out.new ≡ out.old ++ job_encoding job.now) }
{
    job.function.write(out)?;
    write_list(job.args.as_slice(), out)?;
    write_list(job.envs.as_slice(), out)?;
    write_list(job.inputs.as_slice(), out)?;
    write_list(job.outputs.as_slice(), out)?;
    Ok(())
}
