//! Jobs and their outcomes.

ghost use Rattle.std.specs.Prelude.{◌≡◌, ◌≤◌};
ghost use Rattle.std.specs.Option.{option_copied};
ghost use Rattle.thunk_codec.specs.Job.{only_input, job_size, max_job, same_job};

use crate::job_size::{args_size, envs_size, objects_size, outputs_size};
use crate::path::Path;
use object_name::{Bytes, Many, TryCopy};
use std::alloc::{AllocError, Global};

/// What a function is run on: a thunk whose references are all values, with the bytes of those values in place of their names.
#[derive(Debug, Drop)]
pub struct Job {
    pub function: Bytes,
    pub args: Many<Bytes>,
    pub envs: Many<(Bytes, Bytes)>,
    pub inputs: Many<(Path, Bytes)>,
    pub outputs: Many<Path>,
}

impl Job {
    /// The length of the job's encoding.
    #[tactic(auto, using(crate::proofs::Lengths::job_size_is))]
    pub fn size(&self) -> u64
        requires { job_size self.now ≤ max_job }
        ensures { result ≡ job_size self.now }
    {
        20 + self.function.len() as u64
            + args_size(self.args.as_slice())
            + envs_size(self.envs.as_slice())
            + objects_size(self.inputs.as_slice())
            + outputs_size(self.outputs.as_slice())
    }

    /// Whether two jobs are the same. By a law they are so exactly where they are equal.
    #[tactic(auto, unfolding(crate::specs::Job::same_job))]
    pub fn is_same(&self, other: &Job) -> bool
        ensures { result ≡ same_job self.now other.now }
    {
        if self.function != other.function {
            return false;
        }
        if self.args != other.args {
            return false;
        }
        if self.envs != other.envs {
            return false;
        }
        if self.inputs != other.inputs {
            return false;
        }
        self.outputs == other.outputs
    }
}

/// The bytes of the one input, where it has this path.
pub fn only_input<'a>(inputs: &'a [(Path, Bytes)], path: &[u8]) -> Option<&'a [u8]>
    ensures { option_copied result ≡ only_input path.now inputs.now }
{
    let [input] = inputs else {
        return None;
    };
    if input.0.text() != path {
        return None;
    }
    Some(input.1.as_slice())
}

impl TryCopy for Job {
    fn copy(&self, alloc: Global) -> Result<Self, AllocError> {
        let function = self.function.copy(alloc)?;
        let args = self.args.copy(alloc)?;
        let envs = self.envs.copy(alloc)?;
        let inputs = self.inputs.copy(alloc)?;
        let outputs = self.outputs.copy(alloc)?;
        Ok(Job {
            function,
            args,
            envs,
            inputs,
            outputs,
        })
    }
}

/// What running a function on a job gave.
#[derive(Debug, Drop)]
pub enum Outcome {
    /// The outputs, in the order of the job's.
    Done(Many<Bytes>),
    /// A status from 1 to 204.
    Failed(u8),
}

impl TryCopy for Outcome {
    fn copy(&self, alloc: Global) -> Result<Self, AllocError> {
        match self {
            Outcome::Done(outputs) => Ok(Outcome::Done(outputs.copy(alloc)?)),
            Outcome::Failed(status) => Ok(Outcome::Failed(*status)),
        }
    }
}
