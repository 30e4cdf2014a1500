//! The parts that a thunk's text lists, before the rules on them are looked at.

ghost use Rattle.std.specs.Prelude.{◌≡◌, Some, None};
ghost use Rattle.thunk_codec.specs.Gives.{Gives};
ghost use Rattle.thunk_codec.specs.Raw.{parts_of};
ghost use Rattle.thunk_codec.specs.Reading.{parts_at};

use crate::decoding::DecodeFault;
use crate::lines::{bytes_lines, env_lines, input_lines};
use crate::reading::{ref_at, strip_prefix};
use crate::reference::Ref;
use object_name::{Bytes, Many};
use std::alloc::Global;

/// The parts of a text, whatever rules they break.
#[derive(Drop)]
pub struct RawParts {
    pub function: Ref,
    pub args: Many<Bytes>,
    pub envs: Many<(Bytes, Bytes)>,
    pub inputs: Many<(Bytes, Ref)>,
    pub outputs: Many<Bytes>,
}

/// The parts that a text lists, and what comes after it.
#[tactic(auto, unfolding(crate::specs::Reading::parts_at))]
pub fn parts_at(alloc: Global, bytes: &[u8]) -> Result<(RawParts, &[u8]), DecodeFault>
    ensures { Gives (λ x. (parts_of x.0, x.1.now)) result (parts_at bytes.now) }
{
    let rest = strip_prefix(b"gg-thunk 1\n", bytes)?;
    let rest = strip_prefix(b"f ", rest)?;
    let (function, rest) = match ref_at(rest) {
        Ok(read) => read,
        Err(fault) => return Err(fault),
    };
    let (args, rest) = match bytes_lines(alloc, b'a', rest) {
        Ok(read) => read,
        Err(fault) => return Err(fault),
    };
    let (envs, rest) = match env_lines(alloc, rest) {
        Ok(read) => read,
        Err(fault) => return Err(fault),
    };
    let (inputs, rest) = match input_lines(alloc, rest) {
        Ok(read) => read,
        Err(fault) => return Err(fault),
    };
    let (outputs, rest) = match bytes_lines(alloc, b'o', rest) {
        Ok(read) => read,
        Err(fault) => return Err(fault),
    };
    let rest = strip_prefix(b"end\n", rest)?;
    Ok((
        RawParts {
            function,
            args,
            envs,
            inputs,
            outputs,
        },
        rest,
    ))
}
