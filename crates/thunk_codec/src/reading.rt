//! Reading what the lines of a thunk's text say, from the prefix.

ghost use Rattle.std.specs.Prelude.{◌≡◌, Some, None};
ghost use Rattle.object_name.specs.Number.{number_of};
ghost use Rattle.thunk_codec.specs.Gives.{Gives};
ghost use Rattle.text_lines.specs.Cuts.{strip_prefix, split_at_byte};
ghost use Rattle.thunk_codec.specs.Reading.{counted_at, ref_at, bytes_at, env_at, input_line_at};

use crate::decoding::DecodeFault;
use crate::reference::Ref;
use object_name::{Bytes, read_number};
use std::alloc::Global;

/// What comes after a prefix.
pub fn strip_prefix<'a>(prefix: &[u8], bytes: &'a [u8]) -> Result<&'a [u8], DecodeFault>
    ensures { Gives (λ x. x.now) result (strip_prefix prefix.now bytes.now) }
{
    text_lines::strip_prefix(prefix, bytes).ok_or(DecodeFault::BadThunk)
}

/// The bytes before the first stop byte, and those after it.
fn split_at_byte(stop: u8, bytes: &[u8]) -> Result<(&[u8], &[u8]), DecodeFault>
    ensures { Gives (λ x. (x.0.now, x.1.now)) result (split_at_byte stop bytes.now) }
{
    text_lines::split_at_byte(stop, bytes).ok_or(DecodeFault::BadThunk)
}

/// The number that a text spells.
fn number(text: &[u8]) -> Result<u64, DecodeFault>
    ensures { Gives (λ n. n) result (number_of text.now) }
{
    read_number(text).ok_or(DecodeFault::BadThunk)
}

/// `LEN:` and so many bytes.
#[tactic(auto, unfolding(crate::specs::Reading::counted_at))]
fn counted_at(bytes: &[u8]) -> Result<(&[u8], &[u8]), DecodeFault>
    ensures { Gives (λ x. (x.0.now, x.1.now)) result (counted_at bytes.now) }
{
    let (len, rest) = split_at_byte(b':', bytes)?;
    let len = number(len)?;
    if len > rest.len() as u64 {
        return Err(DecodeFault::BadThunk);
    }
    Ok(rest.split_at(len as usize))
}

/// A REF up to the end of its line.
#[tactic(auto, unfolding(crate::specs::Reading::ref_at))]
pub fn ref_at(bytes: &[u8]) -> Result<(Ref, &[u8]), DecodeFault>
    ensures { Gives (λ x. (x.0, x.1.now)) result (ref_at bytes.now) }
{
    let (text, rest) = split_at_byte(b'\n', bytes)?;
    let reference = Ref::read(text).ok_or(DecodeFault::BadThunk)?;
    Ok((reference, rest))
}

/// What an `a` or `o` line says after its letter, where it stands.
#[tactic(auto, unfolding(crate::specs::Reading::bytes_at))]
fn said_at(bytes: &[u8]) -> Result<(&[u8], &[u8]), DecodeFault>
    ensures { Gives (λ x. (x.0.now, x.1.now)) result (bytes_at bytes.now) }
{
    let (said, rest) = counted_at(bytes)?;
    let rest = strip_prefix(b"\n", rest)?;
    Ok((said, rest))
}

/// What an `a` or `o` line says after its letter.
pub fn bytes_at(alloc: Global, bytes: &[u8]) -> Result<(Bytes, &[u8]), DecodeFault>
    ensures { Gives (λ x. (x.0, x.1.now)) result (bytes_at bytes.now) }
{
    let (said, rest) = said_at(bytes)?;
    Ok((Bytes::from_slice(alloc, said)?, rest))
}

/// What an `e` line says after its letter.
#[tactic(auto, unfolding(crate::specs::Reading::env_at))]
pub fn env_at(alloc: Global, bytes: &[u8]) -> Result<((Bytes, Bytes), &[u8]), DecodeFault>
    ensures { Gives (λ x. (x.0, x.1.now)) result (env_at bytes.now) }
{
    let (said, rest) = said_at(bytes)?;
    let (key, value) = split_at_byte(b'=', said)?;
    let key = Bytes::from_slice(alloc, key)?;
    let value = Bytes::from_slice(alloc, value)?;
    Ok(((key, value), rest))
}

/// What an `i` line says after its letter.
#[tactic(auto, unfolding(crate::specs::Reading::input_line_at))]
pub fn input_line_at(alloc: Global, bytes: &[u8]) -> Result<((Bytes, Ref), &[u8]), DecodeFault>
    ensures { Gives (λ x. (x.0, x.1.now)) result (input_line_at bytes.now) }
{
    let (path, rest) = counted_at(bytes)?;
    let rest = strip_prefix(b" ", rest)?;
    let (reference, rest) = match ref_at(rest) {
        Ok(read) => read,
        Err(fault) => return Err(fault),
    };
    let path = Bytes::from_slice(alloc, path)?;
    Ok(((path, reference), rest))
}
