//! The last command again, over links.

use crate::command::{Task, run};
use crate::links::LinkScripts;
use crate::part::Failing;
use crate::undisturbed::Undisturbed;
use crate::wrong::Wrong;
use object_name::TryCopy;
use std::alloc::{AllocError, Global};
use std::sync::Wait;
use std::thread::Threads;

/// What is said of a line that isn't of its form.
const NO_LINKS: &str = "neither `over N links` nor `over links` and lists of actions";

/// What is said where the last command is of another kind.
const NO_FORCE: &str = "the last command is no `force` without links";

/// The links that a line names behind `over `, and how many they are: `8 links`, which answer each job at once, or `links Lose,
/// Delay Repeat`, a list of actions for each.
fn read_links(alloc: Global, number: usize, text: &str) -> Result<(LinkScripts, usize), Wrong> {
    let mut links = LinkScripts::none(alloc);
    if let Some(count) = text.strip_suffix(" links") {
        let count = count.parse::<usize>().ok();
        return Ok((
            links,
            count.ok_or(Wrong::Form {
                number,
                why: NO_LINKS,
            })?,
        ));
    }
    let scripts = text.strip_prefix("links ");
    let scripts = scripts.ok_or(Wrong::Form {
        number,
        why: NO_LINKS,
    })?;
    let mut count = 0usize;
    for script in scripts.split(", ") {
        links.add(alloc, number, script)?;
        count = count.saturating_add(1);
    }
    Ok((links, count))
}

/// The words of `force` without links, with so many links in place of `--local`. None where they are other words.
fn words_over(
    alloc: Global,
    words: &[String],
    count: usize,
) -> Result<Option<Vec<String>>, AllocError> {
    let Some((first, others)) = words.split_first() else {
        return Ok(None);
    };
    if first.as_str() != "force" {
        return Ok(None);
    }
    let mut changed = Vec::new(alloc);
    changed.push(String::from_str(alloc, "force")?)?;
    changed.push(String::from_str(alloc, "--jobs")?)?;
    changed.push(format!(in alloc; "{count}")?)?;
    for word in others {
        if word.as_str() != "--local" {
            changed.push(String::from_str(alloc, word)?)?;
        }
    }
    Ok(Some(changed))
}

/// Does the last command again over links: it must print, write and leave the same.
pub fn do_over_links<R: Threads + Wait + Sync>(
    rt: &R,
    undisturbed: &Undisturbed<'_>,
    text: &str,
) -> Result<(), Wrong> {
    let Undisturbed {
        alloc,
        number,
        last,
        ..
    } = undisturbed;
    let (alloc, number) = (*alloc, *number);
    let (links, count) = read_links(alloc, number, text)?;
    let words = words_over(alloc, last.task.words.as_slice(), count)?;
    let task = Task {
        words: words.ok_or(Wrong::Form {
            number,
            why: NO_FORCE,
        })?,
        input: last.task.input.copy(alloc)?,
        links,
    };
    let before = last.before.copy(alloc)?;
    let ran = run(rt, alloc, number, &task, before, Failing::none(alloc))?;
    undisturbed.answers(&ran)?;
    undisturbed.has_left_all(&ran)
}
