//! Forcing over links with a twist.

use crate::flag::Flag;
use crate::gates::{LateGate, Opening};
use crate::hanging::{Hanging, Side};
use crate::lie::Lie;
use crate::pooled::{Pooled, forced};
use crate::sayer::Sayer;
use crate::scene::Scene;
use crate::twist_link::TwistLink;
use crate::wanted::Wanted;
use anyhow::Result;
use force_pool::GateLink;
use object_name::{Bytes, Many, TryCopy};
use sandbox_run::Cards;
use std::alloc::{AllocError, Global};
use std::sync::Wait;
use std::thread::Threads;
use worker_link::{Action, InsideLink, ScriptLink};

/// A link that says the same to each job.
fn saying(alloc: Global, word: &Bytes) -> Result<ScriptLink<Sayer>> {
    let mut actions = Many::new(alloc);
    actions.push(Action::Repeat)?;
    let word = word.copy(alloc)?;
    Ok(ScriptLink::new(alloc, Sayer { word }, actions))
}

/// Forces over a link whose second reply is the first one again, with another word.
pub fn lying<R: Threads + Wait + Sync>(
    rt: &R,
    scene: &Scene,
    wanted: &[Wanted],
    word: &Bytes,
    lie: &Bytes,
) -> Result<Pooled> {
    let alloc = scene.alloc;
    let mut outputs = Many::new(alloc);
    outputs.push(lie.copy(alloc)?)?;
    let mut links = Many::new(alloc);
    links.push(TwistLink {
        link: saying(alloc, word)?,
        twist: Lie::new(1, outputs),
    })?;
    forced(rt, scene, wanted, links)
}

/// A link behind a gate, of which the outcome of one lease opens the gates of all.
fn gated(
    alloc: Global,
    open: &Flag,
    missed: &Flag,
) -> Result<GateLink<TwistLink<InsideLink<Cards>, Opening>, LateGate>, AllocError> {
    let link = TwistLink {
        link: InsideLink::new(alloc, Cards),
        twist: Opening {
            open: open.share()?,
        },
    };
    let gate = LateGate {
        open: open.share()?,
        missed: missed.share()?,
    };
    Ok(GateLink::new(link, gate))
}

/// Forces over two links behind gates, and says whether a lease went on at a gate that didn't open.
pub fn gates<R: Threads + Wait + Sync>(
    rt: &R,
    scene: &Scene,
    wanted: &[Wanted],
) -> Result<(Pooled, bool)> {
    let open = Flag::new(scene.alloc)?;
    let missed = Flag::new(scene.alloc)?;
    let mut links = Many::new(scene.alloc);
    'links: for _ in 0..2 {
        links.push(gated(scene.alloc, &open, &missed)?)?;
    }
    let pooled = forced(rt, scene, wanted, links)?;
    Ok((pooled, missed.is_raised()))
}

/// Forces over a link that hangs after so many replies and one beside it, and says whether one of them went on before its time.
pub fn hanging<R: Threads + Wait + Sync>(
    rt: &R,
    scene: &Scene,
    wanted: &[Wanted],
    replies: u32,
) -> Result<(Pooled, bool)> {
    let hangs = Flag::new(scene.alloc)?;
    let is_over = Flag::new(scene.alloc)?;
    let missed = Flag::new(scene.alloc)?;
    let mut links = Many::new(scene.alloc);
    'sides: for side in [Side::Hangs(replies), Side::Goes] {
        let twist = Hanging {
            side,
            hangs: hangs.share()?,
            is_over: is_over.share()?,
            missed: missed.share()?,
        };
        let link = InsideLink::new(scene.alloc, Cards);
        links.push(TwistLink { link, twist })?;
    }
    let pooled = forced(rt, scene, wanted, links)?;
    Ok((pooled, missed.is_raised()))
}
