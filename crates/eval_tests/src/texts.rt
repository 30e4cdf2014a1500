//! Texts of thunks, whatever rules they break, and references to their outputs.

ghost use Rattle.std.specs.Prelude.{IfOk, IfSome};
ghost use Rattle.std.specs.List.{AllByRecursion};
ghost use Rattle.thunk_codec.specs.Reference.{IsRef};

use object_name::{Bytes, Kind, Many, Name};
use std::alloc::{AllocError, AllocFailed, Global};
use thunk_codec::Ref;

/// Appends the lines of some inputs, at the paths `a`, `b`, ..
fn append_inputs(text: &mut Bytes, inputs: &[Ref]) -> Result<(), AllocError> {
    let mut path = b'a';
    for input in inputs {
        text.append(b"i 1:")?;
        text.append(&[path, b' '])?;
        input.write(text)?;
        text.append(b"\n")?;
        path = path.saturating_add(1);
    }
    Ok(())
}

/// The text of a thunk with these inputs at `a`, `b`, ..; the lines of its arguments and outputs are given.
pub fn thunk_text(
    alloc: Global,
    function: Ref,
    args: &[u8],
    inputs: &[Ref],
    outputs: &[u8],
) -> Result<Bytes, AllocError> {
    let mut text = Bytes::from_slice(alloc, b"gg-thunk 1\nf ")?;
    function.write(&mut text)?;
    text.append(b"\n")?;
    text.append(args)?;
    append_inputs(&mut text, inputs)?;
    text.append(outputs)?;
    text.append(b"end\n")?;
    Ok(text)
}

/// The first output of the thunk of this name, where it is the name of one.
fn first_output(name: Name) -> Option<Ref>
    ensures { IfSome result (λ reference. IsRef reference) }
{
    name.spell(&mut [0; 52]);
    match name.kind() {
        Kind::Thunk => Some(Ref::Out(name, 0)),
        Kind::Value => None,
    }
}

/// The first outputs of the thunks among these names.
pub fn first_outputs(alloc: Global, names: &[Name]) -> Result<Many<Ref>, AllocFailed<Ref>>
    ensures { IfOk result (λ refs. AllByRecursion IsRef refs) }
{
    let mut refs = Many::new(alloc);
    'names: for name in names {
        if let Some(reference) = first_output(*name) {
            refs.push(reference)?;
        }
    }
    Ok(refs)
}
