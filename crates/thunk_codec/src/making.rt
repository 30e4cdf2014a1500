//! Making thunks of parts.

ghost use Rattle.std.specs.Prelude.{◌≡◌, ◌↔◌, IsTrue, IfOk, OnOk, IsErrOf};
ghost use Rattle.std.specs.List.{AllByRecursion};
ghost use Rattle.thunk_codec.specs.Reference.{IsRef};
ghost use Rattle.thunk_codec.specs.declared.making.MakeFault.TheVariants.{Memory};
ghost use Rattle.thunk_codec.specs.Thunk.{IsThunk};

use crate::encoding::encode_parts;
use crate::path::Path;
use crate::reference::{Ref, is_ref};
use crate::rules::{keep_bytes, keep_numbers, keep_orders};
use crate::thunk::Thunk;
use object_name::{Bytes, MAX_SIZE, Many};
use std::alloc::{AllocError, Global};

/// Why there is no thunk of some parts.
#[derive(Clone, Copy, Debug, PartialEq, Eq)]
pub enum MakeFault {
    /// No thunk has these parts in these orders.
    NotThunk,
    /// Memory was refused.
    Memory,
}

impl From<AllocError> for MakeFault {
    ghost from_gives = { λ _ e. e ≡ Memory };

    fn from(_: AllocError) -> Self {
        MakeFault::Memory
    }
}

/// Whether all inputs have references that name objects of their kinds.
fn have_refs(inputs: &[(Path, Ref)]) -> bool
    ensures { IsTrue result ↔ AllByRecursion (λ input. IsRef input.1) inputs.now }
{
    'inputs: for (_, reference) in inputs {
        if !is_ref(reference) {
            return false;
        }
    }
    true
}

impl Thunk {
    ghost use Rattle.std.specs.Prelude.{◌≡◌, IfOk, OnOk, IsErrOf};
    ghost use Rattle.thunk_codec.specs.Thunk.{IsThunk};

    /// The thunk with these parts, where they keep all rules.
    pub fn make(
        alloc: Global,
        function: Ref,
        args: Many<Bytes>,
        envs: Many<(Bytes, Bytes)>,
        inputs: Many<(Path, Ref)>,
        outputs: Many<Path>,
    ) -> Result<Thunk, MakeFault>
        ensures made { IfOk result (λ t. t ≡ record { function = function; args = args; envs = envs; inputs = inputs; outputs = outputs }) }
        ensures rules { OnOk result (IsThunk (record { function = function; args = args; envs = envs; inputs = inputs; outputs = outputs })) }
        ensures none { IsErrOf result MakeFault.NotThunk → ¬ IsThunk (record { function = function; args = args; envs = envs; inputs = inputs; outputs = outputs }) }
    {
        if !is_ref(&function) {
            return Err(MakeFault::NotThunk);
        }
        if !have_refs(inputs.as_slice()) {
            return Err(MakeFault::NotThunk);
        }
        if !keep_numbers(inputs.len(), outputs.len()) {
            return Err(MakeFault::NotThunk);
        }
        if !keep_bytes(args.as_slice(), envs.as_slice()) {
            return Err(MakeFault::NotThunk);
        }
        if !keep_orders(envs.as_slice(), inputs.as_slice(), outputs.as_slice()) {
            return Err(MakeFault::NotThunk);
        }
        let text = encode_parts(
            alloc,
            &function,
            args.as_slice(),
            envs.as_slice(),
            inputs.as_slice(),
            outputs.as_slice(),
        )?;
        if text.len() > MAX_SIZE as usize {
            return Err(MakeFault::NotThunk);
        }
        Ok(Thunk::from_parts(function, args, envs, inputs, outputs))
    }
}
