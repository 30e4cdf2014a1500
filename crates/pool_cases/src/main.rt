//! Forces over links as lines say, and prints what came of it.
#![tactic(auto)]

mod actions;
mod counts;
mod ending;
mod facts;
mod flag;
mod forcing;
mod gates;
mod glossary;
mod hanging;
mod lie;
mod limits;
mod links;
mod pairs;
mod pooled;
mod recipe;
mod sayer;
mod scene;
mod script;
mod seen;
mod text;
mod twist_link;
mod twisted;
mod wanted;

use anyhow::{Context, Result};
use script::Script;
use std::process::ExitCode;
use std::sync::Wait;
use std::thread::Threads;

/// Does what the lines say, up to one that is wrong.
fn run<R: Threads + Wait + Sync + Input + Print + AllocGlobal>(rt: &R) -> Result<()> {
    let mut script = Script::new(rt.alloc());
    let mut number: u64 = 0;
    'lines: for line in rt.lines(rt.alloc()) {
        let line = line?;
        number = number.saturating_add(1);
        let said = script
            .say(rt, line.as_str())
            .context(format_args!("line {number}"))?;
        if let Some(text) = said {
            rt.println(text.as_str())?;
        }
    }
    Ok(())
}

fn main(rt: HostRuntime) -> Result<ExitCode> {
    run(&rt)?;
    Ok(ExitCode::SUCCESS)
}
