//! All pairs of lists of actions, each pair over a build of its own.

use crate::actions::{ACTIONS, failures, spelled};
use crate::forcing::scripted;
use crate::pooled::{Pooled, alone};
use crate::scene::Scene;
use crate::seen::Seen;
use crate::wanted::Wanted;
use anyhow::Result;
use object_name::Many;
use sandbox_run::Cards;
use std::alloc::{AllocFailed, Global};
use std::sync::Wait;
use std::thread::Threads;
use worker_link::Action;

/// How the end reads where each link was given up.
const LINKS_LOST: &str = "links lost";

/// The list of a number, whose digits of base 4 are the actions, the last one first.
fn list(alloc: Global, number: u32, length: u32) -> Result<Many<Action>, AllocFailed<Action>> {
    let mut actions = Many::new(alloc);
    let mut rest = number;
    'actions: for _ in 0..length {
        actions.push(ACTIONS[(rest % 4) as usize])?;
        rest /= 4;
    }
    Ok(actions)
}

/// Whether a list fails more calls than are tried again.
fn is_losing(list: &Many<Action>, retries: u32) -> bool {
    failures(list.as_slice()) > retries as usize
}

/// Whether each list fails more calls than are tried again.
fn are_losing(lists: &[Many<Action>], retries: u32) -> bool {
    lists.iter().all(|list| is_losing(list, retries))
}

/// What is wrong with a forcing beside an evaluation alone. Links may be lost only where each list fails often enough.
fn wrong(
    pooled: &Pooled,
    alone: &Seen,
    lists: &[Many<Action>],
    retries: u32,
) -> Option<&'static str> {
    if pooled.links != lists.len() {
        return Some("the links");
    }
    if !pooled.has_its_numbers() {
        return Some("the numbers");
    }
    if pooled.seen.end.as_str() != LINKS_LOST {
        return pooled.seen.difference(alone);
    }
    if !are_losing(lists, retries) {
        return Some("the end");
    }
    if !pooled.seen.is_prefix(alone) {
        return Some("the writes");
    }
    None
}

/// Two lists of actions, by their number.
fn pair(alloc: Global, number: u32, length: u32) -> Result<Vec<Many<Action>>> {
    let mut lists = Vec::new(alloc);
    let count = 4u32.saturating_pow(length);
    lists.push(list(alloc, number % count.max(1), length)?)?;
    lists.push(list(alloc, number / count.max(1), length)?)?;
    Ok(lists)
}

/// What two lists of actions got wrong.
fn report(alloc: Global, lists: &[Many<Action>], what: &str) -> Result<String> {
    let mut text = String::new(alloc);
    'lists: for list in lists {
        if !text.is_empty() {
            text.push_str(" beside ")?;
        }
        text.push_str(spelled(alloc, list.as_slice())?.as_str())?;
    }
    Ok(format!(in alloc; "{text}: {what}")?)
}

/// Forces over two links with each pair of lists of a length, and says how many agree with an evaluation alone, or which didn't.
pub fn compare<R: Threads + Wait + Sync>(
    rt: &R,
    scene: &Scene,
    length: u32,
    wanted: &[Wanted],
) -> Result<String> {
    let alloc = scene.alloc;
    let retries = scene.limits.retries();
    let alone = alone(scene, wanted, &mut Cards)?;
    let count = 16u32.saturating_pow(length);
    'pairs: for number in 0..count {
        let lists = pair(alloc, number, length)?;
        let pooled = scripted(rt, scene, wanted, lists.as_slice())?;
        if let Some(what) = wrong(&pooled, &alone, lists.as_slice(), retries) {
            return report(alloc, lists.as_slice(), what);
        }
    }
    Ok(format!(in alloc; "{count} pairs of {length} actions agree")?)
}
