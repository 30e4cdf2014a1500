//! The length of a job's encoding, by the lengths of its objects.

ghost use Rattle.std.specs.Prelude.{◌≡◌, ◌≤◌, map};
ghost use Rattle.object_name.specs.Name.{max_size};
ghost use Rattle.thunk_codec.specs.Job.{size_by_lengths};
ghost use Rattle.thunk_codec.specs.Resolved.{OfThunk, HaveObjectLengths};

use crate::job_size::{args_size, envs_size, lengths_size, outputs_size};
use crate::path::Path;
use object_name::Bytes;

/// The length of the encoding of a job with these parts, of whose objects the lengths are given.
pub fn job_len(
    function: u64,
    args: &[Bytes],
    envs: &[(Bytes, Bytes)],
    inputs: &[(Path, u64)],
    outputs: &[Path],
) -> u64
    requires function { function ≤ max_size }
    requires objects { HaveObjectLengths inputs.now }
    requires parts { OfThunk args.now envs.now (map (λ input. input.0) inputs.now) outputs.now }
    ensures { result ≡ size_by_lengths function args.now envs.now inputs.now outputs.now }
{
    20 + function + args_size(args) + envs_size(envs) + lengths_size(inputs) + outputs_size(outputs)
}
