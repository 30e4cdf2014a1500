//! Archives: what they hold, and reading them.

ghost use Rattle.std.specs.Prelude.{◌≡◌, [], false, IfOk};
ghost use Rattle.tool_bin.specs.ArchiveReading.{archive_of, begins_with_table, with_table, without_table};

use crate::archive_reading::{after_table, all_members};
use object_name::Many;
use std::alloc::{AllocError, Global};
use std::marker::Model;
use text_lines::strip_prefix;

/// What every archive begins with.
pub const ARCHIVE_MARK: &[u8] = b"!<arch>\n";

/// The name field of the header of a table of symbols.
pub const TABLE_FIELD: &[u8] = b"/               ";

/// Sizes from here on have too many digits for a header.
pub const SIZE_LIMIT: u64 = 10_000_000_000;

/// A member of an archive: its name and its contents. Contracts see both as lists.
#[derive(Debug, Drop)]
pub struct Member<'a> {
    name: &'a [u8],
    contents: &'a [u8],
}

impl<'a> Model for Member<'a> {
    ghost use Rattle.tool_bin.specs.Archive.{ArchiveMember};

    ghost Value = { ArchiveMember };

    ghost view = { λ m. record { name = m.name.now; contents = m.contents.now } };
}

impl<'a> Member<'a> {
    pub fn new(name: &'a [u8], contents: &'a [u8]) -> Self
        ensures name { result.name ≡ name.now }
        ensures contents { result.contents ≡ contents.now }
    {
        Member { name, contents }
    }

    pub fn name(&self) -> &'a [u8]
        ensures { result.now ≡ self.now.name }
    {
        self.name
    }

    pub fn contents(&self) -> &'a [u8]
        ensures { result.now ≡ self.now.contents }
    {
        self.contents
    }
}

/// What an archive holds. Contracts see whether it has a table of symbols, and the members as a list.
#[derive(Debug, Drop)]
pub struct Archive<'a> {
    has_table: bool,
    members: Many<Member<'a>>,
}

impl<'a> Model for Archive<'a> {
    ghost use Rattle.tool_bin.specs.Archive.{ArchiveContents};

    ghost Value = { ArchiveContents };

    ghost view = { λ a. record { has_table = a.has_table; members = a.members } };
}

impl<'a> Archive<'a> {
    /// The archive that holds nothing.
    pub fn new(alloc: Global) -> Self
        ensures has_table { result.has_table ≡ false }
        ensures members { result.members ≡ [] }
    {
        Archive {
            has_table: false,
            members: Many::new(alloc),
        }
    }

    /// Whether there is a table of symbols.
    pub fn has_table(&self) -> bool
        ensures { result ≡ self.now.has_table }
    {
        self.has_table
    }

    /// The members in order.
    pub fn members(&self) -> &[Member<'a>]
        ensures { result.now ≡ self.now.members }
    {
        self.members.as_slice()
    }

    /// The members, to be changed.
    pub fn into_members(self) -> Many<Member<'a>>
        ensures { result ≡ self.entry.members }
    {
        self.members
    }
}

/// Whether the bytes begin as a table of symbols.
fn begins_with_table(bytes: &[u8]) -> bool
    ensures { result ≡ begins_with_table bytes.now }
{
    bytes.starts_with(TABLE_FIELD)
}

/// What an archive holds whose bytes after the mark begin with a table.
fn with_table(alloc: Global, bytes: &[u8]) -> Result<Option<Archive<'_>>, AllocError>
    ensures { IfOk result (λ read. read ≡ with_table bytes.now) }
{
    let Some(rest) = after_table(bytes) else {
        return Ok(None);
    };
    let Some(members) = all_members(alloc, rest)? else {
        return Ok(None);
    };
    Ok(Some(Archive {
        has_table: true,
        members,
    }))
}

/// What an archive without a table holds, by its bytes after the mark.
fn without_table(alloc: Global, bytes: &[u8]) -> Result<Option<Archive<'_>>, AllocError>
    ensures { IfOk result (λ read. read ≡ without_table bytes.now) }
{
    let Some(members) = all_members(alloc, bytes)? else {
        return Ok(None);
    };
    Ok(Some(Archive {
        has_table: false,
        members,
    }))
}

/// What the archive with these bytes holds. None where they are no archive: where they don't begin with the mark, or a part
/// isn't well-formed or ends too early.
#[tactic(auto, unfolding(crate::specs::ArchiveReading::archive_of))]
pub fn read_archive(alloc: Global, bytes: &[u8]) -> Result<Option<Archive<'_>>, AllocError>
    ensures { IfOk result (λ read. read ≡ archive_of bytes.now) }
{
    let Some(body) = strip_prefix(ARCHIVE_MARK, bytes) else {
        return Ok(None);
    };
    if begins_with_table(body) {
        return with_table(alloc, body);
    }
    without_table(alloc, body)
}
