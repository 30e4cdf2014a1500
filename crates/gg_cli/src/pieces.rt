//! Texts that are written piece by piece.

ghost use Rattle.std.specs.Prelude.{◌++◌, decimal};
ghost use Rattle.object_name.specs.Name.{spelling};
ghost use Rattle.gg_cli.specs.Endings.{fault_line};
ghost use Rattle.gg_cli.specs.Pieces.{piece_text, pieces_text};
ghost use Rattle.gg_cli.specs.Writing.{Writes};

use object_name::{Bytes, Name, SPELLING_LEN, Sink, Trouble, write_all, write_number};
use std::alloc::Global;

/// A piece of a text.
#[derive(Clone, Copy, Debug)]
pub(crate) enum Piece<'a> {
    /// These bytes.
    Text(&'a [u8]),
    /// The spelling of a name.
    Spelled(Name),
    /// A number in decimal.
    Number(u64),
}

/// Writes some bytes.
pub(crate) fn write<S: Sink>(sink: &mut S, bytes: &[u8]) -> Result<(), Trouble>
    ensures { Writes bytes.now (S.written sink.old) (S.written sink.new) (S.faults sink.old) (S.faults sink.new) result }
{
    write_all(sink, bytes)
}

/// Writes a name.
fn write_name<S: Sink>(sink: &mut S, name: &Name) -> Result<(), Trouble>
    ensures { Writes (spelling name.now) (S.written sink.old) (S.written sink.new) (S.faults sink.old) (S.faults sink.new) result }
{
    let mut text = [0; SPELLING_LEN];
    name.spell(&mut text);
    write(sink, &text)
}

/// Writes a number.
fn write_decimal<S: Sink>(alloc: Global, sink: &mut S, number: u64) -> Result<(), Trouble>
    ensures { Writes (decimal number) (S.written sink.old) (S.written sink.new) (S.faults sink.old) (S.faults sink.new) result }
{
    let mut digits = Bytes::new(alloc);
    write_number(number, &mut digits)?;
    write(sink, digits.as_slice())
}

/// Writes a piece.
fn write_piece<S: Sink>(alloc: Global, sink: &mut S, piece: &Piece) -> Result<(), Trouble>
    ensures { Writes (piece_text piece.now) (S.written sink.old) (S.written sink.new) (S.faults sink.old) (S.faults sink.new) result }
{
    match piece {
        Piece::Text(bytes) => write(sink, bytes),
        Piece::Spelled(name) => write_name(sink, name),
        Piece::Number(number) => write_decimal(alloc, sink, *number),
    }
}

/// Writes pieces, in order.
pub(crate) fn write_pieces<S: Sink>(
    alloc: Global,
    sink: &mut S,
    pieces: &[Piece],
) -> Result<(), Trouble>
    ensures { Writes (pieces_text pieces.now) (S.written sink.old) (S.written sink.new) (S.faults sink.old) (S.faults sink.new) result }
{
    match pieces {
        [] => Ok(()),
        [last] => write_piece(alloc, sink, last),
        [first, rest @ ..] => {
            write_piece(alloc, sink, first)?;
            write_pieces(alloc, sink, rest)
        }
    }
}

/// Writes the line of a fault whose text has these pieces.
pub(crate) fn write_line<S: Sink>(
    alloc: Global,
    sink: &mut S,
    pieces: &[Piece],
) -> Result<(), Trouble>
    ensures { Writes (fault_line (pieces_text pieces.now)) (S.written sink.old) (S.written sink.new) (S.faults sink.old) (S.faults sink.new) result }
{
    write(sink, b"gg: ")?;
    write_pieces(alloc, sink, pieces)?;
    write(sink, b"\n")
}
