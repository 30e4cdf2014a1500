//! Thunks with names of values in place of their references.

ghost use Rattle.std.specs.Prelude.{◌≡◌, IfOk, OnOk, length};
ghost use Rattle.thunk_codec.specs.Resolved.{refs_of, with_values, resolved_by, AreNames, HaveValueKind};

use crate::path::Path;
use crate::reference::Ref;
use crate::thunk::Thunk;
use object_name::{Many, Name, TryCopy};
use std::alloc::{AllocError, Global};

/// Inputs with values in place of what stands there.
fn inputs_with(
    alloc: Global,
    inputs: &[(Path, Ref)],
    values: &[Name],
) -> Result<Many<(Path, Ref)>, AllocError>
    requires as_many { length values.now ≡ length inputs.now }
    requires kinds { HaveValueKind values.now }
    ensures made { IfOk result (λ made. made ≡ with_values inputs.now values.now) }
    ensures names { OnOk result (AreNames values.now) }
{
    let mut made = Many::new(alloc);
    'inputs: for (i, input) in inputs.iter().enumerate() {
        let value = Ref::value(&values[i]);
        let path = input.0.copy(alloc)?;
        made.push((path, value))?;
    }
    Ok(made)
}

/// The thunk with values in place of its function and of what stands at its inputs, in order.
pub fn resolve(alloc: Global, thunk: &Thunk, values: &[Name]) -> Result<Thunk, AllocError>
    requires as_many { length values.now ≡ length (refs_of thunk.now) }
    requires kinds { HaveValueKind values.now }
    ensures { IfOk result (λ t. t ≡ resolved_by thunk.now values.now) }
{
    match values {
        [] => thunk.copy(alloc),
        [function, others @ ..] => {
            let inputs = inputs_with(alloc, thunk.inputs(), others)?;
            thunk.with_refs(alloc, Ref::value(function), inputs)
        }
    }
}
