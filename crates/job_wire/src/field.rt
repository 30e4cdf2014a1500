//! What the contents of a frame are made of: strings, paths, and pairs of them.

ghost use Rattle.std.specs.Prelude.{◌≡◌, ◌<◌, ◌^◌, ◌++◌, ℕ, List, length, Option, OnOk};
ghost use Rattle.thunk_codec.specs.Job.{encoded_string};
ghost use Rattle.thunk_codec.specs.Path.{is_path};
ghost use Rattle.job_wire.specs.Gives.{Gives, only_if};
ghost use Rattle.job_wire.specs.Reading.{string_at, path_at, pair_at};

use crate::fault::ReadFault;
use crate::number::count_at;
use object_name::Bytes;
use std::alloc::{AllocError, Global};
use thunk_codec::Path;

/// A thing that lists in a frame are made of.
pub(crate) trait Field: Drop {
    /// How it is encoded.
    ghost spelled: { Self → List ℕ };

    /// The thing at the front of some bytes, and the bytes after it.
    ghost at: { List ℕ → Option (Self × List ℕ) };

    fn read(alloc: Global, bytes: &[u8]) -> Result<(Self, &[u8]), ReadFault>
    where
        Self: Sized,
        ensures { Gives (λ read. (read.0, read.1.now)) result (at bytes.now) };

    fn write(&self, out: &mut Bytes) -> Result<(), AllocError>
        requires { length (spelled self.now) < 2 ^ 32 }
        ensures { OnOk result (out.new ≡ out.old ++ spelled self.now) };
}

/// Appends a string.
pub(crate) fn write_string(bytes: &[u8], out: &mut Bytes) -> Result<(), AllocError>
    requires { length bytes.now < 2 ^ 32 }
    ensures { OnOk result (out.new ≡ out.old ++ encoded_string bytes.now) }
{
    out.append(&(bytes.len() as u32).to_be_bytes())?;
    out.append(bytes)
}

/// The string at the front of some bytes, where it stands, and the bytes after it.
#[tactic(auto, unfolding(crate::specs::Reading::string_at))]
pub(crate) fn string_at(bytes: &[u8]) -> Result<(&[u8], &[u8]), ReadFault>
    ensures { Gives (λ read. (read.0.now, read.1.now)) result (string_at bytes.now) }
{
    let (len, rest) = count_at(bytes)?;
    let len = len as usize;
    if len > rest.len() {
        return Err(ReadFault::Bad);
    }
    Ok(rest.split_at(len))
}

impl Field for Bytes {
    ghost spelled = { encoded_string };

    ghost at = { string_at };

    fn read(alloc: Global, bytes: &[u8]) -> Result<(Self, &[u8]), ReadFault> {
        let (text, rest) = string_at(bytes)?;
        Ok((Bytes::from_slice(alloc, text)?, rest))
    }

    fn write(&self, out: &mut Bytes) -> Result<(), AllocError> {
        write_string(self.as_slice(), out)
    }
}

/// The path whose text is the given one, as it stands.
fn path_as_is(alloc: Global, text: &[u8]) -> Result<Path, ReadFault>
    ensures { Gives (λ path. path) result (only_if (is_path text.now) text.now) }
{
    let Some(path) = Path::read(alloc, text)? else {
        return Err(ReadFault::Bad);
    };
    if path.text() != text {
        return Err(ReadFault::Bad);
    }
    Ok(path)
}

impl Field for Path {
    ghost spelled = { encoded_string };

    ghost at = { path_at };

    #[tactic(auto, unfolding(crate::specs::Reading::path_at))]
    fn read(alloc: Global, bytes: &[u8]) -> Result<(Self, &[u8]), ReadFault> {
        let (text, rest) = string_at(bytes)?;
        let path = path_as_is(alloc, text)?;
        Ok((path, rest))
    }

    fn write(&self, out: &mut Bytes) -> Result<(), AllocError> {
        write_string(self.text(), out)
    }
}

impl<A: Field, B: Field> Field for (A, B) {
    ghost spelled = { λ pair. A.spelled pair.0 ++ B.spelled pair.1 };

    ghost at = { pair_at A.at B.at };

    #[tactic(auto, unfolding(crate::specs::Reading::pair_at))]
    fn read(alloc: Global, bytes: &[u8]) -> Result<(Self, &[u8]), ReadFault> {
        let (first, rest) = A::read(alloc, bytes)?;
        let (second, rest) = B::read(alloc, rest)?;
        Ok(((first, second), rest))
    }

    fn write(&self, out: &mut Bytes) -> Result<(), AllocError> {
        self.0.write(out)?;
        self.1.write(out)
    }
}
