//! The length of a job's encoding, by the sizes in the names of its objects.

ghost use Rattle.std.specs.Prelude.{◌≡◌, ◌+◌, ◌^◌, ◌<◌, length, sum_by};
ghost use Rattle.thunk_codec.specs.Job.{ref_name};

use crate::path::Path;
use crate::reference::Ref;
use object_name::Bytes;

/// The lengths of some arguments as strings.
pub fn args_size(args: &[Bytes]) -> u64
    requires { sum_by (λ arg. 4 + length arg) args.now < 2 ^ 40 }
    ensures sum { result ≡ sum_by (λ arg. 4 + length arg) args.now }
    ensures small { result < 2 ^ 40 }
{
    let mut size = 0;
    for arg in args {
        size += 4 + arg.len() as u64;
    }
    size
}

/// The lengths of some keys and values as strings.
pub fn envs_size(envs: &[(Bytes, Bytes)]) -> u64
    requires { sum_by (λ env. 8 + length env.0 + length env.1) envs.now < 2 ^ 40 }
    ensures sum { result ≡ sum_by (λ env. 8 + length env.0 + length env.1) envs.now }
    ensures small { result < 2 ^ 40 }
{
    let mut size = 0;
    for (key, value) in envs {
        size += 8 + key.len() as u64 + value.len() as u64;
    }
    size
}

/// The lengths of some paths and of the objects that stand there as strings.
pub fn inputs_size(inputs: &[(Path, Ref)]) -> u64
    requires { sum_by (λ input. 8 + length input.0 + (ref_name input.1).size) inputs.now < 2 ^ 40 }
    ensures sum { result ≡ sum_by (λ input. 8 + length input.0 + (ref_name input.1).size) inputs.now }
    ensures small { result < 2 ^ 40 }
{
    let mut size = 0;
    for (path, reference) in inputs {
        size += 8 + path.text().len() as u64 + u64::from(reference.name().size());
    }
    size
}

/// The lengths of some paths and of the objects that stand there, which are given, as strings.
pub fn lengths_size(inputs: &[(Path, u64)]) -> u64
    requires { sum_by (λ input. 8 + length input.0 + input.1) inputs.now < 2 ^ 40 }
    ensures sum { result ≡ sum_by (λ input. 8 + length input.0 + input.1) inputs.now }
    ensures small { result < 2 ^ 40 }
{
    let mut size = 0;
    for (path, len) in inputs {
        size += 8 + path.text().len() as u64 + *len;
    }
    size
}

/// The lengths of some paths and of the bytes that stand there as strings.
pub fn objects_size(inputs: &[(Path, Bytes)]) -> u64
    requires { sum_by (λ input. 8 + length input.0 + length input.1) inputs.now < 2 ^ 40 }
    ensures sum { result ≡ sum_by (λ input. 8 + length input.0 + length input.1) inputs.now }
    ensures small { result < 2 ^ 40 }
{
    let mut size = 0;
    for (path, bytes) in inputs {
        size += 8 + path.text().len() as u64 + bytes.len() as u64;
    }
    size
}

/// The lengths of some paths as strings.
pub fn outputs_size(outputs: &[Path]) -> u64
    requires { sum_by (λ output. 4 + length output) outputs.now < 2 ^ 40 }
    ensures sum { result ≡ sum_by (λ output. 4 + length output) outputs.now }
    ensures small { result < 2 ^ 40 }
{
    let mut size = 0;
    for output in outputs {
        size += 4 + output.text().len() as u64;
    }
    size
}
