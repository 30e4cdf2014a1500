//! Laws of archives that no single call shows.

ghost use Rattle.std.specs.Prelude.{◌≡◌, ◌+◌, ◌<◌, ◌∷◌, ◌++◌, ℕ, List, Option, Some, true, drop, flat_map, length, replicate, is_some, IfSome};
ghost use Rattle.std.specs.List.{list_all};
ghost use Rattle.thunk_codec.specs.Job.{encoded_count};
ghost use Rattle.tool_bin.specs.Archive.{ArchiveMember, archive_text, is_member, member_text, size_limit};
ghost use Rattle.tool_bin.specs.ArchiveReading.{archive_of, member_at};
ghost use Rattle.tool_bin.specs.SymbolTable.{zero_terminated, first_offset, part_len, offset_after, offsets_from, symbols_of, table_of};

/// An archive that is written is read back: its members in order, and whether it has a table.
pub fn archives_read_back()
    ensures { (table : Option (List ℕ)) (members : List ArchiveMember) → IfSome table (λ contents. length contents < size_limit) → list_all is_member members ≡ true
        → archive_of (archive_text table members) ≡ Some (record { has_table = is_some table; members = members }) }
{}

/// The table lists the symbols of the members in order, each at the offset of its member, and in the archive with that table
/// the header of the member stands there.
pub fn tables_say_offsets()
    ensures says { (table : List ℕ) (members : List ArchiveMember) → table_of members ≡ Some table
        → table ≡ encoded_count (length (flat_map symbols_of members))
        ++ (flat_map encoded_count (offsets_from (first_offset (length table)) members) ++ flat_map zero_terminated (flat_map symbols_of members)) }
    ensures offsets { (offset : ℕ) (before : List ArchiveMember) (member : ArchiveMember) (after : List ArchiveMember)
        → offsets_from offset (before ++ member ∷ after) ≡ offsets_from offset before
        ++ (replicate (length (symbols_of member)) (offset_after offset before)
        ++ offsets_from (offset_after offset before + part_len (length member.contents)) after) }
    ensures stand { (table : List ℕ) (before : List ArchiveMember) (member : ArchiveMember) (after : List ArchiveMember)
        → length table < size_limit → list_all is_member (before ++ member ∷ after) ≡ true
        → member_at (drop (offset_after (first_offset (length table)) before) (archive_text (Some table) (before ++ member ∷ after)))
        ≡ Some (member, flat_map member_text after) }
{}
