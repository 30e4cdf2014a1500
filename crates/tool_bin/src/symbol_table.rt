//! The table of symbols of an archive.

ghost use Rattle.std.specs.Prelude.{◌≡◌, ◌+◌, ◌++◌, ◌∷◌, ◌^◌, [], flat_map, length, map, replicate, IfOk, OnOk};
ghost use Rattle.thunk_codec.specs.Job.{encoded_count};
ghost use Rattle.tool_bin.specs.SymbolTable.{capped, zero_terminated, first_offset, part_len, offsets_from, size_within, symbols_of, table_of, table_size, table_with, table_word, table_words};

use crate::archive::{Member, SIZE_LIMIT};
use crate::object_reading::symbol_names;
use object_name::{Bytes, Many};
use std::alloc::{AllocError, Global};

/// The offset of the part after one of this size, or the greatest number where that is greater.
fn next_offset(offset: u64, size: usize) -> u64
    ensures { result ≡ capped (offset + part_len size) }
{
    let size = size as u64;
    offset
        .saturating_add(60)
        .saturating_add(size)
        .saturating_add(size % 2)
}

/// Appends names, each with a zero byte at its end.
fn add_names(symbols: &[Bytes], names: &mut Bytes) -> Result<(), AllocError>
    ensures { OnOk result (names.new ≡ names.old ++ flat_map zero_terminated symbols.now) }
{
    'symbols: for symbol in symbols {
        names.append(symbol.as_slice())?;
        names.append(&[0])?;
    }
    Ok(())
}

/// Appends an offset so many times.
fn add_offsets(count: usize, offset: u64, offsets: &mut Many<u64>) -> Result<(), AllocError>
    ensures { OnOk result (offsets.new ≡ offsets.old ++ replicate count offset) }
{
    'offsets: for _ in 0..count {
        offsets.push(offset)?;
    }
    Ok(())
}

/// Appends the symbols of a member, and its offset for each of them.
fn add_member(
    alloc: Global,
    member: &Member<'_>,
    offset: u64,
    offsets: &mut Many<u64>,
    names: &mut Bytes,
) -> Result<(), AllocError>
    ensures offsets { OnOk result (offsets.new ≡ offsets.old ++ replicate (length (symbols_of member.now)) offset) }
    ensures names { OnOk result (names.new ≡ names.old ++ flat_map zero_terminated (symbols_of member.now)) }
{
    let Some(symbols) = symbol_names(alloc, member.contents())? else {
        return Ok(());
    };
    add_offsets(symbols.len(), offset, offsets)?;
    add_names(symbols.as_slice(), names)
}

/// For each symbol of some members the offset of its member, counted from the first, and the names with zero bytes.
fn list_members(alloc: Global, members: &[Member<'_>]) -> Result<(Many<u64>, Bytes), AllocError>
    ensures offsets { IfOk result (λ read. read.0 ≡ map capped (offsets_from 0 members.now)) }
    ensures names { IfOk result (λ read. read.1 ≡ flat_map zero_terminated (flat_map symbols_of members.now)) }
{
    let mut offsets = Many::new(alloc);
    let mut names = Bytes::new(alloc);
    let mut offset = 0;
    let mut rest = members;
    'members: while let [member, others @ ..] = rest {
        add_member(alloc, member, offset, &mut offsets, &mut names)?;
        offset = next_offset(offset, member.contents().len());
        rest = others;
    }
    Ok((offsets, names))
}

/// The size of a table of so many symbols with so many bytes of names, where a part may have it.
fn table_size(symbols: usize, names: usize) -> Option<u64>
    ensures { result ≡ size_within (table_size symbols names) }
{
    let symbols = symbols as u64;
    let names = names as u64;
    if symbols >= SIZE_LIMIT {
        return None;
    }
    if names >= SIZE_LIMIT {
        return None;
    }
    let size = 4 + 4 * symbols + names;
    if size >= SIZE_LIMIT {
        return None;
    }
    Some(size)
}

/// A number in the table, if it can hold it.
fn table_word(number: u64) -> Option<u32>
    ensures { result ≡ table_word number }
{
    u32::try_from(number).ok()
}

/// An offset in the table, if it can hold it.
fn offset_word(first: u64, offset: u64) -> Option<u32>
    ensures { result ≡ table_word (first + offset) }
{
    table_word(first.saturating_add(offset))
}

/// Offsets in the table, counted from the first, if it can hold them.
fn offset_words(alloc: Global, first: u64, offsets: &[u64]) -> Result<Option<Bytes>, AllocError>
    ensures { IfOk result (λ words. words ≡ table_words (map (λ offset. first + offset) offsets.now)) }
{
    let mut words = Bytes::new(alloc);
    'offsets: for offset in offsets {
        let Some(word) = offset_word(first, *offset) else {
            return Ok(None);
        };
        words.append(&word.to_be_bytes())?;
    }
    Ok(Some(words))
}

/// The count of the symbols, the offsets and the names, one after the other.
fn joined(alloc: Global, symbols: u32, offsets: &Bytes, names: &Bytes) -> Result<Bytes, AllocError>
    ensures { IfOk result (λ table. table ≡ encoded_count symbols ++ (offsets.now ++ names.now)) }
{
    let mut table = Bytes::from_slice(alloc, &symbols.to_be_bytes())?;
    table.append(offsets.as_slice())?;
    table.append(names.as_slice())?;
    Ok(table)
}

/// The table of symbols with these offsets, counted from the first, and these names with zero bytes, if it can hold them.
fn table_with(
    alloc: Global,
    first: u64,
    offsets: &[u64],
    names: &Bytes,
) -> Result<Option<Bytes>, AllocError>
    ensures { IfOk result (λ table. table ≡ table_with (length offsets.now) (map (λ offset. first + offset) offsets.now) names.now) }
{
    let Some(symbols) = table_word(offsets.len() as u64) else {
        return Ok(None);
    };
    let Some(words) = offset_words(alloc, first, offsets)? else {
        return Ok(None);
    };
    Ok(Some(joined(alloc, symbols, &words, names)?))
}

/// The table of some members, if it can hold their symbols and isn't too long for a part.
pub fn table_of(alloc: Global, members: &[Member<'_>]) -> Result<Option<Bytes>, AllocError>
    ensures { IfOk result (λ table. table ≡ table_of members.now) }
{
    let (offsets, names) = list_members(alloc, members)?;
    let Some(size) = table_size(offsets.len(), names.len()) else {
        return Ok(None);
    };
    table_with(alloc, 68 + size + size % 2, offsets.as_slice(), &names)
}
