//! What is printed of a script.

ghost use Rattle.gg_cli.specs.Answer.{count_line, inferred_text};
ghost use Rattle.gg_cli.specs.Writing.{Writes};

use crate::pieces::Piece::{Number, Text};
use crate::pieces::write_pieces;
use build_script::Inferred;
use object_name::{Sink, Trouble};
use std::alloc::Global;

/// Writes a label and a number in a line.
pub(crate) fn print_number<S: Sink>(
    alloc: Global,
    sink: &mut S,
    label: &[u8],
    number: u64,
) -> Result<(), Trouble>
    ensures { Writes (count_line label.now number) (S.written sink.old) (S.written sink.new) (S.faults sink.old) (S.faults sink.new) result }
{
    write_pieces(alloc, sink, &[Text(label), Number(number), Text(b"\n")])
}

/// Writes a label and a number of a script's in a line.
pub(crate) fn print_count<S: Sink>(
    alloc: Global,
    sink: &mut S,
    label: &[u8],
    number: u32,
) -> Result<(), Trouble>
    ensures { Writes (count_line label.now number) (S.written sink.old) (S.written sink.new) (S.faults sink.old) (S.faults sink.new) result }
{
    print_number(alloc, sink, label, u64::from(number))
}

/// Writes the numbers of commands and of thunks.
pub(crate) fn print_inferred<S: Sink>(
    alloc: Global,
    sink: &mut S,
    inferred: Inferred,
) -> Result<(), Trouble>
    ensures { Writes (inferred_text inferred.commands inferred.thunks) (S.written sink.old) (S.written sink.new) (S.faults sink.old) (S.faults sink.new) result }
{
    print_count(alloc, sink, b"commands ", inferred.commands)?;
    print_count(alloc, sink, b"thunks ", inferred.thunks)
}
