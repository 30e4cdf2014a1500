//! Reading the text of a thunk.

ghost use Rattle.std.specs.Prelude.{◌≡◌, ◌≤◌, length, Some, None, IfOk, IsErrOf};
ghost use Rattle.object_name.specs.Name.{max_size};
ghost use Rattle.thunk_codec.specs.declared.decoding.DecodeFault.TheVariants.{Memory};
ghost use Rattle.thunk_codec.specs.Gives.{Gives, only_if};
ghost use Rattle.thunk_codec.specs.Raw.{HasRefs, parts_of};
ghost use Rattle.thunk_codec.specs.Reading.{thunk_of};
ghost use Rattle.thunk_codec.specs.Thunk.{Parts, Text, keeps_rules, text_of};

use crate::canonical::{canonical_inputs, canonical_paths};
use crate::parts::{RawParts, parts_at};
use crate::rules::{keeps_bytes, keeps_numbers, keeps_orders};
use crate::thunk::Thunk;
use object_name::MAX_SIZE;
use std::alloc::{AllocError, AllocFailed, Global};

/// Why there is no thunk.
#[derive(Clone, Copy, Debug, PartialEq, Eq)]
pub enum DecodeFault {
    /// The bytes are the text of no thunk.
    BadThunk,
    /// Memory was refused.
    Memory,
}

impl From<AllocError> for DecodeFault {
    ghost from_gives = { λ _ e. e ≡ Memory };

    fn from(_: AllocError) -> Self {
        DecodeFault::Memory
    }
}

impl<T: Drop> From<AllocFailed<T>> for DecodeFault {
    ghost from_gives = { λ _ e. e ≡ Memory };

    fn from(_: AllocFailed<T>) -> Self {
        DecodeFault::Memory
    }
}

/// The thunk with the parts of a text, where they keep the rules.
fn thunk_with(alloc: Global, raw: RawParts) -> Result<Thunk, DecodeFault>
    requires refs { HasRefs (parts_of raw) }
    requires size { length (text_of (parts_of raw)) ≤ max_size }
    ensures { Gives (λ t. t) result (only_if (keeps_rules (parts_of raw)) (parts_of raw)) }
{
    if !keeps_numbers(&raw) {
        return Err(DecodeFault::BadThunk);
    }
    if !keeps_bytes(&raw) {
        return Err(DecodeFault::BadThunk);
    }
    if !keeps_orders(&raw) {
        return Err(DecodeFault::BadThunk);
    }
    let inputs = canonical_inputs(alloc, raw.inputs.as_slice())?;
    let outputs = canonical_paths(alloc, raw.outputs.as_slice())?;
    Ok(Thunk::from_parts(raw.function, raw.args, raw.envs, inputs, outputs))
}

/// The thunk whose text the bytes are, by the definition as a total function.
fn thunk_at(alloc: Global, bytes: &[u8]) -> Result<Thunk, DecodeFault>
    ensures { Gives (λ t. t) result (thunk_of bytes.now) }
{
    if bytes.len() > MAX_SIZE as usize {
        return Err(DecodeFault::BadThunk);
    }
    let (raw, rest) = match parts_at(alloc, bytes) {
        Ok(read) => read,
        Err(fault) => return Err(fault),
    };
    if !rest.is_empty() {
        return Err(DecodeFault::BadThunk);
    }
    thunk_with(alloc, raw)
}

/// The thunk whose text the bytes are, all of them.
pub fn decode(alloc: Global, bytes: &[u8]) -> Result<Thunk, DecodeFault>
    // What is read has this text.
    ensures found { IfOk result (λ t. Text bytes.now t) }
    // Bytes are refused only where no thunk has them as its text.
    ensures bad { IsErrOf result DecodeFault.BadThunk → (t : Parts) → ¬ Text bytes.now t }
    // The same by the definition as a total function.
    ensures exact { IfOk result (λ t. thunk_of bytes.now ≡ Some t) }
    ensures none { IsErrOf result DecodeFault.BadThunk → thunk_of bytes.now ≡ None }
{
    thunk_at(alloc, bytes)
}
