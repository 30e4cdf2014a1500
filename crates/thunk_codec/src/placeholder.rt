//! Placeholders: files that stand for outputs of thunks.

ghost use Rattle.std.specs.Prelude.{◌≡◌, ℕ, Some, IfOk, IfSome};
ghost use Rattle.object_name.specs.Name.{ObjectName};
ghost use Rattle.object_name.specs.declared.kind.Kind.TheVariants.{Thunk};
ghost use Rattle.thunk_codec.specs.Placeholder.{IsPlaceholder, output_of, placeholder_of};

use crate::reference::Ref;
use object_name::{Bytes, Name};
use std::alloc::{AllocError, Global};
use text_lines::{before_feed, strip_prefix};

/// The first line.
const FIRST_LINE: &[u8] = b"gg-placeholder 1\n";

/// The placeholder of an output of a thunk.
pub fn write_placeholder(alloc: Global, name: &Name, index: u32) -> Result<Bytes, AllocError>
    requires { name.now.kind ≡ Thunk }
    ensures { IfOk result (λ bytes. IsPlaceholder bytes name.now index) }
{
    let mut text = Bytes::from_slice(alloc, FIRST_LINE)?;
    Ref::output(name, index).write(&mut text)?;
    text.append(b"\n")?;
    Ok(text)
}

/// The thunk and the index of the output whose placeholder this is.
pub fn read_placeholder(bytes: &[u8]) -> Option<(Name, u32)>
    ensures found { IfSome result (λ read. IsPlaceholder bytes.now read.0 read.1) }
    ensures only { (name : ObjectName) (index : ℕ) → IsPlaceholder bytes.now name index → result ≡ Some (name, index) }
    ensures exact { result ≡ placeholder_of bytes.now }
{
    read_output(bytes)
}

/// The same, by its lines.
#[tactic(auto, unfolding(crate::specs::Placeholder::placeholder_of))]
fn read_output(bytes: &[u8]) -> Option<(Name, u32)>
    ensures { result ≡ placeholder_of bytes.now }
{
    let text = before_feed(strip_prefix(FIRST_LINE, bytes)?)?;
    output(&Ref::read(text)?)
}

/// The thunk and the index of an output.
fn output(reference: &Ref) -> Option<(Name, u32)>
    ensures { result ≡ output_of reference.now }
{
    match reference {
        Ref::Value(_) => None,
        Ref::Out(name, index) => Some((*name, *index)),
    }
}
