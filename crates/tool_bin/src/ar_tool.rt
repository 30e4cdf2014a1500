//! The cards `ar` and `ranlib`.

ghost use Rattle.std.specs.Prelude.{◌≡◌, IfOk};
ghost use Rattle.std.specs.List.{list_all};
ghost use Rattle.std.specs.Option.{option_copied};
ghost use Rattle.tool_bin.specs.Archive.{is_member};
ghost use Rattle.tool_bin.specs.Ar.{ar_outcome, archive_for, archive_with, old_contents, ranlib_outcome};
ghost use Rattle.tool_bin.specs.OneOutput.{made_outcome};

use crate::archive::{Archive, Member, SIZE_LIMIT, read_archive};
use crate::archive_reading::is_member_name;
use crate::archive_task::{ArchiveTask, table_task, task_of};
use crate::archive_writing::write_archive;
use crate::member_insertion::put_all;
use crate::one_output::output_outcome;
use crate::status::{BAD_ARCHIVE, BAD_FORM};
use crate::symbol_table::table_of;
use object_name::Bytes;
use std::alloc::{AllocError, Global};
use thunk_codec::{Job, Outcome};

/// Whether an archive can have this member.
fn is_member(member: &Member<'_>) -> bool
    ensures { result ≡ is_member member.now }
{
    if !is_member_name(member.name()) {
        return false;
    }
    (member.contents().len() as u64) < SIZE_LIMIT
}

/// Whether an archive can have all these members.
fn are_members(members: &[Member<'_>]) -> bool
    ensures { result ≡ list_all is_member members.now }
{
    members.iter().all(|member| is_member(member))
}

/// What the old archive holds: nothing, where there is none.
fn old_contents<'a>(alloc: Global, old: Option<&'a [u8]>) -> Result<Option<Archive<'a>>, AllocError>
    ensures { IfOk result (λ archive. archive ≡ old_contents (option_copied old.entry)) }
{
    match old {
        None => Ok(Some(Archive::new(alloc))),
        Some(bytes) => read_archive(alloc, bytes),
    }
}

/// The archive of some members, with a table where there is to be one.
fn archive_with(
    alloc: Global,
    has_table: bool,
    members: &[Member<'_>],
) -> Result<Option<Bytes>, AllocError>
    ensures { IfOk result (λ archive. archive ≡ archive_with has_table members.now) }
{
    if !has_table {
        return Ok(Some(write_archive(alloc, None, members)?));
    }
    let Some(table) = table_of(alloc, members)? else {
        return Ok(None);
    };
    Ok(Some(write_archive(alloc, Some(table.as_slice()), members)?))
}

/// The archive that a task asks for, if there can be one.
fn archive_for(alloc: Global, task: &ArchiveTask<'_>) -> Result<Option<Bytes>, AllocError>
    ensures { IfOk result (λ archive. archive ≡ archive_for task.now) }
{
    let Some(old) = old_contents(alloc, task.old())? else {
        return Ok(None);
    };
    if !are_members(task.members()) {
        return Ok(None);
    }
    let has_table = task.wants_table() || old.has_table();
    let mut members = old.into_members();
    put_all(alloc, &mut members, task.members())?;
    archive_with(alloc, has_table, members.as_slice())
}

/// The outcome of a task.
fn task_outcome(alloc: Global, task: Option<ArchiveTask<'_>>) -> Result<Outcome, AllocError>
    ensures { IfOk result (λ outcome. outcome ≡ made_outcome 83 archive_for task.entry) }
{
    let Some(task) = task else {
        return Ok(Outcome::Failed(BAD_FORM));
    };
    output_outcome(alloc, BAD_ARCHIVE, archive_for(alloc, &task)?)
}

/// The outcome of a job of the card `ar`.
pub fn ar(alloc: Global, job: &Job) -> Result<Outcome, AllocError>
    ensures { IfOk result (λ outcome. outcome ≡ ar_outcome job.now) }
{
    if job.outputs.len() != 1 {
        return Ok(Outcome::Failed(BAD_FORM));
    }
    task_outcome(
        alloc,
        task_of(alloc, job.args.as_slice(), job.inputs.as_slice())?,
    )
}

/// The outcome of a job of the card `ranlib`.
pub fn ranlib(alloc: Global, job: &Job) -> Result<Outcome, AllocError>
    ensures { IfOk result (λ outcome. outcome ≡ ranlib_outcome job.now) }
{
    if job.outputs.len() != 1 {
        return Ok(Outcome::Failed(BAD_FORM));
    }
    if !job.args.is_empty() {
        return Ok(Outcome::Failed(BAD_FORM));
    }
    task_outcome(alloc, table_task(alloc, job.inputs.as_slice()))
}
