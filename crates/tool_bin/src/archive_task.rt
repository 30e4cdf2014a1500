//! What the arguments and the inputs of a job of `ar` or `ranlib` ask for.

ghost use Rattle.std.specs.Prelude.{◌≡◌, IfOk};
ghost use Rattle.std.specs.Option.{option_copied, option_map};
ghost use Rattle.tool_bin.specs.Ar.{insertion_task, member_from, member_path, members_from, optional_old, table_task, task_of};

use crate::archive::Member;
use object_name::{Bytes, Many, write_number};
use std::alloc::{AllocError, Global};
use std::marker::Model;
use thunk_codec::{Path, only_input};

/// The number in a path is padded to so many digits.
const ZEROS: &[u8] = b"0000";

/// What is asked for: whether there is to be a table of symbols, the members to put in, and the old archive, if there is one.
#[derive(Drop)]
pub struct ArchiveTask<'a> {
    wants_table: bool,
    members: Many<Member<'a>>,
    old: Option<&'a [u8]>,
}

impl<'a> Model for ArchiveTask<'a> {
    ghost use Rattle.std.specs.Option.{option_copied};
    ghost use Rattle.tool_bin.specs.Ar.{ArchiveTask as Asked};

    ghost Value = { Asked };

    ghost view = { λ t. record { wants_table = t.wants_table; members = t.members; old = option_copied t.old } };
}

impl<'a> ArchiveTask<'a> {
    /// Whether there is to be a table of symbols.
    pub fn wants_table(&self) -> bool
        ensures { result ≡ self.now.wants_table }
    {
        self.wants_table
    }

    /// The members to put in.
    pub fn members(&self) -> &[Member<'a>]
        ensures { result.now ≡ self.now.members }
    {
        self.members.as_slice()
    }

    /// The old archive, if there is one.
    pub fn old(&self) -> Option<&'a [u8]>
        ensures { option_copied result ≡ self.now.old }
    {
        self.old
    }
}

/// The path of the input of the member with this number.
fn member_path(alloc: Global, number: usize) -> Result<Bytes, AllocError>
    ensures { IfOk result (λ path. path ≡ member_path number) }
{
    let mut digits = Bytes::new(alloc);
    write_number(number as u64, &mut digits)?;
    let mut path = Bytes::from_slice(alloc, b"m")?;
    path.append(&ZEROS[..4usize.saturating_sub(digits.len())])?;
    path.append(digits.as_slice())?;
    Ok(path)
}

/// The member with this number and name whose contents are an input, where the input has its path.
fn member_from<'a>(
    alloc: Global,
    number: usize,
    name: &'a [u8],
    input: &'a (Path, Bytes),
) -> Result<Option<Member<'a>>, AllocError>
    ensures { IfOk result (λ member. member ≡ member_from number name.now input.now) }
{
    let path = member_path(alloc, number)?;
    if input.0.text() != path.as_slice() {
        return Ok(None);
    }
    Ok(Some(Member::new(name, input.1.as_slice())))
}

/// The members with these names, whose contents are the first inputs, and the other inputs.
fn given_members<'a>(
    alloc: Global,
    names: &'a [Bytes],
    inputs: &'a [(Path, Bytes)],
) -> Result<Option<(Many<Member<'a>>, &'a [(Path, Bytes)])>, AllocError>
    ensures { IfOk result (λ read. option_map (λ x. (x.0, x.1.now)) read ≡ members_from 0 names.now inputs.now) }
{
    let mut members = Many::new(alloc);
    let mut rest = inputs;
    'names: for (number, name) in names.iter().enumerate() {
        let [input, others @ ..] = rest else {
            return Ok(None);
        };
        let Some(member) = member_from(alloc, number, name.as_slice(), input)? else {
            return Ok(None);
        };
        members.push(member)?;
        rest = others;
    }
    Ok(Some((members, rest)))
}

/// The contents of the one input `old`, which may be absent.
fn optional_old(inputs: &[(Path, Bytes)]) -> Option<Option<&[u8]>>
    ensures { option_map option_copied result ≡ optional_old inputs.now }
{
    if inputs.is_empty() {
        return Some(None);
    }
    let old = only_input(inputs, b"old")?;
    Some(Some(old))
}

/// The task to give the old archive a table.
pub fn table_task(alloc: Global, inputs: &[(Path, Bytes)]) -> Option<ArchiveTask<'_>>
    ensures { result ≡ table_task inputs.now }
{
    let old = only_input(inputs, b"old")?;
    Some(ArchiveTask {
        wants_table: true,
        members: Many::new(alloc),
        old: Some(old),
    })
}

/// The task to put members in.
fn insertion_task<'a>(
    alloc: Global,
    wants_table: bool,
    names: &'a [Bytes],
    inputs: &'a [(Path, Bytes)],
) -> Result<Option<ArchiveTask<'a>>, AllocError>
    ensures { IfOk result (λ task. task ≡ insertion_task wants_table names.now inputs.now) }
{
    let Some((members, rest)) = given_members(alloc, names, inputs)? else {
        return Ok(None);
    };
    let Some(old) = optional_old(rest) else {
        return Ok(None);
    };
    Ok(Some(ArchiveTask {
        wants_table,
        members,
        old,
    }))
}

/// The task that the arguments and the inputs of a job of `ar` ask for.
pub fn task_of<'a>(
    alloc: Global,
    args: &'a [Bytes],
    inputs: &'a [(Path, Bytes)],
) -> Result<Option<ArchiveTask<'a>>, AllocError>
    ensures { IfOk result (λ task. task ≡ task_of args.now inputs.now) }
{
    let [letters, names @ ..] = args else {
        return Ok(None);
    };
    match letters.as_slice() {
        b"r" => insertion_task(alloc, false, names, inputs),
        b"rs" => insertion_task(alloc, true, names, inputs),
        b"s" if names.is_empty() => Ok(table_task(alloc, inputs)),
        _ => Ok(None),
    }
}
