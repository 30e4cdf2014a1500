//! Paths and environments in byte order.

ghost use Rattle.std.specs.Prelude.{◌≡◌, IfOk};
ghost use Rattle.thunk_codec.specs.Sorted.{sorted_paths, sorted_envs};

use crate::path::Path;
use object_name::{Bytes, Many};
use std::alloc::AllocError;

/// Paths in byte order. Equal ones stay.
pub fn sort_paths(paths: Many<Path>) -> Result<Many<Path>, AllocError>
    ensures { IfOk result (λ sorted. sorted ≡ sorted_paths paths) }
{
    let mut sorted = paths;
    sorted.0.sort()?;
    Ok(sorted)
}

/// An environment in the byte order of its keys. Those of equal keys stay, in their order.
pub fn sort_envs(envs: Many<(Bytes, Bytes)>) -> Result<Many<(Bytes, Bytes)>, AllocError>
    ensures { IfOk result (λ sorted. sorted ≡ sorted_envs envs) }
{
    let mut sorted = envs;
    sorted.0.sort_by(|first, second| first.0.cmp(&second.0))?;
    Ok(sorted)
}
