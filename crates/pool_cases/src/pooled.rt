//! Forcing over links of one kind, and by evaluation alone.

use crate::counts::Counts;
use crate::scene::Scene;
use crate::seen::Seen;
use crate::wanted::{Wanted, refs};
use anyhow::{Result, bail};
use force_pool::{ForceFault, PoolEnd, Report, force_with_links};
use need_eval::evaluate;
use object_name::Many;
use std::sync::Wait;
use std::thread::Threads;
use thunk_codec::Runner;
use worker_link::Link;

/// What came of forcing over links.
#[derive(Drop)]
pub struct Pooled {
    pub seen: Seen,
    pub report: Report,
    /// The numbers of the history.
    pub counts: Counts,
    /// How many links came back.
    pub links: usize,
    /// How many jobs were sent over them.
    pub sent: u64,
}

/// How many jobs were sent over links.
fn sent_over<L: Link>(links: &[L]) -> u64 {
    let mut sent: u64 = 0;
    'links: for link in links {
        sent = sent.saturating_add(link.sent().len() as u64);
    }
    sent
}

/// Forces over links.
pub fn forced<R: Threads + Wait + Sync, L: Link + Drop + Send>(
    rt: &R,
    scene: &Scene,
    wanted: &[Wanted],
    links: Many<L>,
) -> Result<Pooled> {
    let alloc = scene.alloc;
    let count = links.len();
    if count < 1 {
        bail!("no links");
    }
    if count > 64 {
        bail!("more than 64 links");
    }
    let mut keeper = scene.keeper()?;
    let refs = refs(alloc, wanted)?;
    let setup = scene.limits.setup();
    let PoolEnd { end, report, links } = force_with_links(
        rt,
        alloc,
        &mut keeper,
        refs,
        setup,
        links,
    );
    Ok(Pooled {
        seen: Seen::new(alloc, &scene.glossary, &end, keeper)?,
        counts: Counts::of(report.history.as_slice()),
        report,
        links: links.len(),
        sent: sent_over(links.as_slice()),
    })
}

/// Evaluates alone.
pub fn alone<R: Runner>(scene: &Scene, wanted: &[Wanted], runner: &mut R) -> Result<Seen> {
    let alloc = scene.alloc;
    let mut keeper = scene.keeper()?;
    let refs = refs(alloc, wanted)?;
    let budget = scene.limits.budget();
    let retries = scene.limits.retries();
    let end = match evaluate(alloc, &mut keeper, refs, budget, retries, runner) {
        Ok(values) => Ok(values),
        Err(fault) => Err(ForceFault::Eval(fault)),
    };
    Seen::new(alloc, &scene.glossary, &end, keeper)
}

impl Pooled {
    /// Whether the report's numbers are those of the history, and the links were sent as many jobs as were started.
    pub fn has_its_numbers(&self) -> bool {
        let Report {
            starts,
            replies,
            losses,
            ..
        } = &self.report;
        if *starts != self.counts.started || *starts != self.sent {
            return false;
        }
        *replies == self.counts.answered && *losses == self.counts.lost
    }
}
