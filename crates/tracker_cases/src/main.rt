//! Makes calls on a tracker as lines say, and prints what is unknown and ready after each.
#![tactic(auto)]

mod beside;
mod call;
mod chain;
mod glossary;
mod made_up;
mod plain;
mod recipe;
mod script;
mod tracked;

use anyhow::{Context, Result};
use script::Script;
use std::process::ExitCode;

/// Does what the lines say, up to one that is wrong, or after which the tracker and the plain program differ.
fn run<R: Input + Print + AllocGlobal>(rt: &R) -> Result<()> {
    let mut script = Script::new(rt.alloc());
    let mut number: u64 = 0;
    'lines: for line in rt.lines(rt.alloc()) {
        let line = line?;
        number = number.saturating_add(1);
        let said = script
            .say(line.as_str())
            .context(format_args!("line {number}"))?;
        if let Some(text) = said {
            rt.println(text.as_str())?;
        }
    }
    Ok(())
}

fn main(rt: HostRuntime) -> Result<ExitCode> {
    run(&rt)?;
    Ok(ExitCode::SUCCESS)
}
