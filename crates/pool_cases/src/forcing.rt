//! Forcing over the links of a case.

use crate::actions::copied;
use crate::links::Links;
use crate::pooled::{Pooled, alone, forced};
use crate::sayer::Sayer;
use crate::scene::Scene;
use crate::seen::Seen;
use crate::twisted::{gates, hanging, lying};
use crate::wanted::Wanted;
use anyhow::{Result, bail};
use object_name::{Many, TryCopy};
use sandbox_run::Cards;
use std::sync::Wait;
use std::thread::Threads;
use worker_link::{Action, InsideLink, ScriptLink};

/// A forcing over links beside an evaluation alone.
#[derive(Drop)]
pub struct Forced {
    pub pooled: Pooled,
    pub alone: Seen,
    /// Whether a lease went on at a gate that didn't open, or a link that hung or waited before its time.
    pub missed: bool,
}

/// Links that run each job inside.
fn inside<R: Threads + Wait + Sync>(
    rt: &R,
    scene: &Scene,
    wanted: &[Wanted],
    count: u32,
) -> Result<Pooled> {
    let mut links = Many::new(scene.alloc);
    'links: for _ in 0..count {
        links.push(InsideLink::new(scene.alloc, Cards))?;
    }
    forced(rt, scene, wanted, links)
}

/// Links that act by lists.
pub fn scripted<R: Threads + Wait + Sync>(
    rt: &R,
    scene: &Scene,
    wanted: &[Wanted],
    lists: &[Many<Action>],
) -> Result<Pooled> {
    let alloc = scene.alloc;
    let mut links = Many::new(alloc);
    'lists: for list in lists {
        let actions = copied(alloc, list.as_slice())?;
        links.push(ScriptLink::new(alloc, Cards, actions))?;
    }
    forced(rt, scene, wanted, links)
}

/// Forces over the links of a case.
fn over_links<R: Threads + Wait + Sync>(
    rt: &R,
    scene: &Scene,
    wanted: &[Wanted],
) -> Result<(Pooled, bool)> {
    match &scene.links {
        Links::None => bail!("no links"),
        Links::Inside(count) => Ok((inside(rt, scene, wanted, *count)?, false)),
        Links::Scripts(lists) => Ok((scripted(rt, scene, wanted, lists.as_slice())?, false)),
        Links::Liar { word, lie } => Ok((lying(rt, scene, wanted, word, lie)?, false)),
        Links::Gates => gates(rt, scene, wanted),
        Links::Hanging(replies) => hanging(rt, scene, wanted, *replies),
    }
}

/// Evaluates alone what the links compute.
fn beside(scene: &Scene, wanted: &[Wanted]) -> Result<Seen> {
    match &scene.links {
        Links::Liar { word, .. } => {
            let word = word.copy(scene.alloc)?;
            alone(scene, wanted, &mut Sayer { word })
        }
        _ => alone(scene, wanted, &mut Cards),
    }
}

/// Forces over the links of a case, and evaluates alone.
pub fn force<R: Threads + Wait + Sync>(rt: &R, scene: &Scene, wanted: &[Wanted]) -> Result<Forced> {
    let (pooled, missed) = over_links(rt, scene, wanted)?;
    Ok(Forced {
        pooled,
        alone: beside(scene, wanted)?,
        missed,
    })
}
