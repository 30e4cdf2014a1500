//! Lines with their identifiers replaced.

ghost use Rattle.std.specs.Prelude.{◌≡◌, ◌++◌, OnOk, IfErr};
ghost use Rattle.tool_text.specs.Expand.{replaced, expanded};
ghost use Rattle.tool_text.specs.Views.{macros_of};
ghost use Rattle.tool_text.specs.Tries.{StopsAbove};

use crate::cpp_fault::CppFault;
use crate::failure::Failure;
use crate::macros::MacroTable;
use crate::prefixes::{split_other, split_word};
use object_name::{Bytes, MAX_SIZE};
use thunk_codec::is_identifier;

/// What stands in the place of a run of letters, digits and `_`.
fn replacement<'a>(macros: &'a MacroTable, word: &'a [u8]) -> &'a [u8]
    ensures { result.now ≡ replaced (macros_of macros.now) word.now }
{
    if !is_identifier(word) {
        return word;
    }
    match macros.get(word) {
        Some(text) => text.as_slice(),
        None => word,
    }
}

/// Appends a line with its identifiers replaced. It stops where the output gets over the size of an object, and so adds one text
/// at most to an output of that size.
pub(crate) fn expand(macros: &MacroTable, line: &[u8], out: &mut Bytes) -> Result<(), CppFault>
    ensures ok { OnOk result (out.new ≡ out.old ++ expanded (macros_of macros.now) line.now) }
    ensures err { IfErr result (StopsAbove (out.old ++ expanded (macros_of macros.now) line.now)) }
{
    let mut rest = line;
    'pieces: while !rest.is_empty() {
        let (other, later) = split_other(rest);
        out.append(other)?;
        let (word, after) = split_word(later);
        out.append(replacement(macros, word))?;
        if out.len() > MAX_SIZE as usize {
            return Err(CppFault::Failed(Failure::OutputTooLong));
        }
        rest = after;
    }
    Ok(())
}
