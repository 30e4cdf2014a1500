//! Paths that are canonical: each stands in a text as its normal path.

ghost use Rattle.std.specs.Prelude.{◌≡◌, Some, map};
ghost use Rattle.std.specs.List.{list_all};
ghost use Rattle.thunk_codec.specs.Gives.{Gives, only_if};
ghost use Rattle.thunk_codec.specs.Path.{is_path};

use crate::decoding::DecodeFault;
use crate::path::Path;
use crate::reference::Ref;
use object_name::{Bytes, Many};
use std::alloc::Global;

/// The path that a text is, where it is canonical.
fn canonical_path(alloc: Global, text: &[u8]) -> Result<Path, DecodeFault>
    ensures { Gives (λ path. path) result (only_if (is_path text.now) text.now) }
{
    let Some(path) = Path::read(alloc, text)? else {
        return Err(DecodeFault::BadThunk);
    };
    if path.text() != text {
        return Err(DecodeFault::BadThunk);
    }
    Ok(path)
}

/// The paths that some texts are, where each is canonical.
pub fn canonical_paths(alloc: Global, texts: &[Bytes]) -> Result<Many<Path>, DecodeFault>
    ensures { Gives (λ paths. paths) result (only_if (list_all is_path texts.now) texts.now) }
{
    let mut paths = Many::new(alloc);
    'texts: for text in texts {
        let path = canonical_path(alloc, text.as_slice())?;
        paths.push(path)?;
    }
    Ok(paths)
}

/// Inputs, where the text of each is a canonical path.
pub fn canonical_inputs(
    alloc: Global,
    inputs: &[(Bytes, Ref)],
) -> Result<Many<(Path, Ref)>, DecodeFault>
    ensures { Gives (λ made. made) result (only_if (list_all is_path (map (λ input. input.0) inputs.now)) inputs.now) }
{
    let mut made = Many::new(alloc);
    'inputs: for (text, reference) in inputs {
        let path = canonical_path(alloc, text.as_slice())?;
        made.push((path, *reference))?;
    }
    Ok(made)
}
