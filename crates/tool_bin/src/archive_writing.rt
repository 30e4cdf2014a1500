//! Writing archives.

ghost use Rattle.std.specs.Prelude.{◌≡◌, ◌≤◌, ◌++◌, ◌∷◌, [], codes, length, IfOk, OnOk};
ghost use Rattle.std.specs.List.{flat_map};
ghost use Rattle.std.specs.Option.{option_copied};
ghost use Rattle.tool_bin.specs.Archive.{archive_text, field, member_text, numbers, padding, part, table_name, table_part};

use crate::archive::{ARCHIVE_MARK, Member, TABLE_FIELD};
use object_name::{Bytes, write_number};
use std::alloc::{AllocError, Global};

/// As many spaces as the longest field has bytes.
const SPACES: &[u8] = b"                ";

/// Appends a text, filled with spaces on the right.
fn write_field(width: usize, text: &[u8], out: &mut Bytes) -> Result<(), AllocError>
    requires { width ≤ 16 }
    ensures { OnOk result (out.new ≡ out.old ++ field width text.now) }
{
    out.append(text)?;
    out.append(&SPACES[..width.saturating_sub(text.len())])
}

/// Appends the fields of a header after the name.
#[tactic(auto, unfolding(crate::specs::Archive::numbers))]
fn write_numbers(alloc: Global, mode: &[u8], size: usize, out: &mut Bytes) -> Result<(), AllocError>
    ensures { OnOk result (out.new ≡ out.old ++ numbers mode.now size) }
{
    let mut digits = Bytes::new(alloc);
    write_number(size as u64, &mut digits)?;
    out.append(b"0           0     0     ")?;
    write_field(8, mode, out)?;
    write_field(10, digits.as_slice(), out)?;
    out.append(b"`\n")
}

/// Appends the padding of contents of this size.
fn write_padding(size: usize, out: &mut Bytes) -> Result<(), AllocError>
    ensures { OnOk result (out.new ≡ out.old ++ padding size) }
{
    if size % 2 == 0 {
        return Ok(());
    }
    out.append(b"\n")
}

/// Appends what follows the name in a part: the rest of its header, its contents and their padding.
fn write_contents(
    alloc: Global,
    mode: &[u8],
    contents: &[u8],
    out: &mut Bytes,
) -> Result<(), AllocError>
    ensures { OnOk result (out.new ≡ out.old ++ (numbers mode.now (length contents.now) ++ (contents.now ++ padding (length contents.now)))) }
{
    write_numbers(alloc, mode, contents.len(), out)?;
    out.append(contents)?;
    write_padding(contents.len(), out)
}

/// Appends the name field of a member.
fn write_name(name: &[u8], out: &mut Bytes) -> Result<(), AllocError>
    ensures { OnOk result (out.new ≡ out.old ++ field 16 (name.now ++ 47 ∷ [])) }
{
    out.append(name)?;
    out.append(b"/")?;
    out.append(&SPACES[..15usize.saturating_sub(name.len())])
}

/// Appends a member.
fn write_member(alloc: Global, member: &Member<'_>, out: &mut Bytes) -> Result<(), AllocError>
    ensures { OnOk result (out.new ≡ out.old ++ member_text member.now) }
{
    write_name(member.name(), out)?;
    write_contents(alloc, b"644", member.contents(), out)
}

/// Appends a table of symbols.
fn write_table(alloc: Global, table: &[u8], out: &mut Bytes) -> Result<(), AllocError>
    ensures { OnOk result (out.new ≡ out.old ++ part table_name (codes "0") table.now) }
{
    out.append(TABLE_FIELD)?;
    write_contents(alloc, b"0", table, out)
}

/// Appends the table of symbols, where there is one.
fn write_table_part(alloc: Global, table: Option<&[u8]>, out: &mut Bytes) -> Result<(), AllocError>
    ensures { OnOk result (out.new ≡ out.old ++ table_part (option_copied table.entry)) }
{
    match table {
        None => Ok(()),
        Some(table) => write_table(alloc, table, out),
    }
}

/// Appends members.
fn write_members(alloc: Global, members: &[Member<'_>], out: &mut Bytes) -> Result<(), AllocError>
    ensures { OnOk result (out.new ≡ out.old ++ flat_map member_text members.now) }
{
    'members: for member in members {
        write_member(alloc, member, out)?;
    }
    Ok(())
}

/// The text of an archive: a table of symbols, if there is one, and members.
pub fn write_archive(
    alloc: Global,
    table: Option<&[u8]>,
    members: &[Member<'_>],
) -> Result<Bytes, AllocError>
    ensures { IfOk result (λ archive. archive ≡ archive_text (option_copied table.entry) members.now) }
{
    let mut archive = Bytes::from_slice(alloc, ARCHIVE_MARK)?;
    write_table_part(alloc, table, &mut archive)?;
    write_members(alloc, members, &mut archive)?;
    Ok(archive)
}
