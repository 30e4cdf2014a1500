//! Reading the lines of a thunk's text that begin with a letter.

ghost use Rattle.std.specs.Prelude.{◌≡◌, ◌∷◌, [], true, false, drop, nat_eq, MatchOption};
ghost use Rattle.std.specs.List.{starts_with};
ghost use Rattle.thunk_codec.specs.Gives.{Gives};
ghost use Rattle.thunk_codec.specs.Reading.{bytes_at, env_at, input_line_at, all_lines_at};

use crate::decoding::DecodeFault;
use crate::reading::{bytes_at, env_at, input_line_at};
use crate::reference::Ref;
use object_name::{Bytes, Many};
use std::alloc::Global;

/// What comes after the letter of a line that begins with it.
fn line_of(letter: u8, bytes: &[u8]) -> Option<&[u8]>
    ensures { MatchOption result (starts_with nat_eq bytes.now (letter ∷ 32 ∷ []) ≡ false)
        (λ said. (starts_with nat_eq bytes.now (letter ∷ 32 ∷ []) ≡ true) × (said.now ≡ drop 2 bytes.now)) }
{
    if bytes.starts_with(&[letter, b' ']) {
        Some(&bytes[2..])
    } else {
        None
    }
}

/// The `a` or `o` lines at the beginning, and what comes after them.
pub fn bytes_lines(
    alloc: Global,
    letter: u8,
    bytes: &[u8],
) -> Result<(Many<Bytes>, &[u8]), DecodeFault>
    ensures { Gives (λ x. (x.0, x.1.now)) result (all_lines_at letter bytes_at bytes.now) }
{
    let mut lines = Many::new(alloc);
    let mut rest = bytes;
    'lines: while let Some(said) = line_of(letter, rest) {
        let (line, after) = match bytes_at(alloc, said) {
            Ok(read) => read,
            Err(fault) => return Err(fault),
        };
        lines.push(line)?;
        rest = after;
    }
    Ok((lines, rest))
}

/// The `e` lines at the beginning, and what comes after them.
pub fn env_lines(alloc: Global, bytes: &[u8]) -> Result<(Many<(Bytes, Bytes)>, &[u8]), DecodeFault>
    ensures { Gives (λ x. (x.0, x.1.now)) result (all_lines_at 101 env_at bytes.now) }
{
    let mut lines = Many::new(alloc);
    let mut rest = bytes;
    'lines: while let Some(said) = line_of(b'e', rest) {
        let (line, after) = match env_at(alloc, said) {
            Ok(read) => read,
            Err(fault) => return Err(fault),
        };
        lines.push(line)?;
        rest = after;
    }
    Ok((lines, rest))
}

/// The `i` lines at the beginning, and what comes after them.
pub fn input_lines(alloc: Global, bytes: &[u8]) -> Result<(Many<(Bytes, Ref)>, &[u8]), DecodeFault>
    ensures { Gives (λ x. (x.0, x.1.now)) result (all_lines_at 105 input_line_at bytes.now) }
{
    let mut lines = Many::new(alloc);
    let mut rest = bytes;
    'lines: while let Some(said) = line_of(b'i', rest) {
        let (line, after) = match input_line_at(alloc, said) {
            Ok(read) => read,
            Err(fault) => return Err(fault),
        };
        lines.push(line)?;
        rest = after;
    }
    Ok((lines, rest))
}
