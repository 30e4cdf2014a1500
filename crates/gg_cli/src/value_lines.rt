//! What is printed of values.

ghost use Rattle.std.specs.Prelude.{◌≡◌, ◌++◌, OnOk};
ghost use Rattle.file_tree.specs.Wanted.{item_text};
ghost use Rattle.gg_cli.specs.ValueLines.{value_line, value_lines};
ghost use Rattle.gg_cli.specs.Writing.{Writes};

use crate::pieces::write;
use file_tree::Item;
use object_name::{Bytes, Name, SPELLING_LEN, Sink, Trouble};
use std::alloc::{AllocError, Global};

/// Appends the spelling of an item.
fn append_item(text: &mut Bytes, item: &Item) -> Result<(), AllocError>
    ensures { OnOk result (text.new ≡ text.old ++ item_text item.now) }
{
    match item {
        Item::File(path) => text.append(path.text()),
        Item::Bare(reference) => reference.write(text),
    }
}

/// Writes the line of a value: its name and the item that it is the value of.
fn print_value<S: Sink>(
    alloc: Global,
    sink: &mut S,
    name: &Name,
    item: &Item,
) -> Result<(), Trouble>
    ensures { Writes (value_line name.now item.now) (S.written sink.old) (S.written sink.new) (S.faults sink.old) (S.faults sink.new) result }
{
    let mut spelling = [0; SPELLING_LEN];
    name.spell(&mut spelling);
    let mut line = Bytes::new(alloc);
    line.append(&spelling)?;
    line.append(b" ")?;
    append_item(&mut line, item)?;
    line.append(b"\n")?;
    write(sink, line.as_slice())
}

/// Writes a line for each value, in order.
pub(crate) fn print_values<S: Sink>(
    alloc: Global,
    sink: &mut S,
    names: &[Name],
    items: &[Item],
) -> Result<(), Trouble>
    ensures { Writes (value_lines names.now items.now) (S.written sink.old) (S.written sink.new) (S.faults sink.old) (S.faults sink.new) result }
{
    'values: for (name, item) in names.iter().zip(items) {
        print_value(alloc, sink, name, item)?;
    }
    Ok(())
}
