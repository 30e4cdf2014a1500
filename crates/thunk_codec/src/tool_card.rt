//! Cards of tools.

ghost use Rattle.std.specs.Prelude.{◌≡◌, IfOk};
ghost use Rattle.thunk_codec.specs.Card.{card_text};

use object_name::Bytes;
use std::alloc::{AllocError, Global};

/// The card of the tool of a name: the bytes of the function that a thunk of this tool has.
pub fn card(alloc: Global, name: &[u8]) -> Result<Bytes, AllocError>
    ensures { IfOk result (λ bytes. bytes ≡ card_text name.now) }
{
    let mut bytes = Bytes::from_slice(alloc, b"gg-tool ")?;
    bytes.append(name)?;
    bytes.append(b"\n")?;
    Ok(bytes)
}
