//! Putting members into an archive.

ghost use Rattle.std.specs.Prelude.{◌≡◌, ℕ, List, bytes_eq, fold, IfOk, OnOk, Some, None, if◌then◌else◌};
ghost use Rattle.std.specs.Option.{option_or};
ghost use Rattle.indexmap.specs.IndexMap.{get};
ghost use Rattle.tool_bin.specs.Ar.{put};
ghost use Rattle.tool_bin.specs.FirstIndex.{FindsFirst};

use crate::archive::Member;
use indexmap::IndexMap;
use object_name::{Bytes, Many};
use std::alloc::{AllocError, Global};

/// Notes the index of a member of this name, where it is the first one.
fn note_first(
    alloc: Global,
    first: &mut IndexMap<Bytes, usize>,
    name: &[u8],
    index: usize,
) -> Result<(), AllocError>
    ensures { OnOk result ((other : List ℕ) → get bytes_eq first.new other ≡ option_or (get bytes_eq first.old other) (if bytes_eq name.now other then Some index else None)) }
{
    let name = Bytes::from_slice(alloc, name)?;
    if first.contains_key(&name) {
        return Ok(());
    }
    first.insert(name, index)?;
    Ok(())
}

/// The index of the first member of each name.
fn first_indexes(
    alloc: Global,
    members: &[Member<'_>],
) -> Result<IndexMap<Bytes, usize>, AllocError>
    ensures { IfOk result (λ first. FindsFirst (get bytes_eq first) members.now) }
{
    let mut first = IndexMap::new(alloc);
    'members: for (index, member) in members.iter().enumerate() {
        note_first(alloc, &mut first, member.name(), index)?;
    }
    Ok(first)
}

/// Replaces the first member of a name, or adds the member at the end.
fn put<'a>(
    alloc: Global,
    members: &mut Many<Member<'a>>,
    first: &mut IndexMap<Bytes, usize>,
    member: Member<'a>,
) -> Result<(), AllocError>
    requires { FindsFirst (get bytes_eq first.old) members.old }
    ensures members { OnOk result (members.new ≡ put members.old member.entry) }
    ensures first { OnOk result (FindsFirst (get bytes_eq first.new) members.new) }
{
    let name = Bytes::from_slice(alloc, member.name())?;
    let Some(index) = first.get(&name) else {
        first.insert(name, members.len())?;
        members.push(member)?;
        return Ok(());
    };
    members.0[*index] = member;
    Ok(())
}

/// Puts members in one after another.
pub fn put_all<'a>(
    alloc: Global,
    members: &mut Many<Member<'a>>,
    new: &[Member<'a>],
) -> Result<(), AllocError>
    ensures { OnOk result (members.new ≡ fold put members.old new.now) }
{
    let mut first = first_indexes(alloc, members.as_slice())?;
    'new: for member in new {
        put(
            alloc,
            members,
            &mut first,
            Member::new(member.name(), member.contents()),
        )?;
    }
    Ok(())
}
