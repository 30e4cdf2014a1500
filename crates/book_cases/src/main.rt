//! Makes calls on a book as lines say, and prints what is answered to each.
#![tactic(auto)]

mod answered;
mod call;
mod comparing;
mod line;
mod plain;
mod playing;
mod random;
mod sizes;
mod transcript;
mod untold;
mod words;
mod working;

use anyhow::Result;
use std::process::ExitCode;
use transcript::{Said, Transcript};

/// Does what the lines say, up to one that is wrong, and says whether none was.
fn run<R: Input + Print + AllocGlobal>(rt: &R) -> Result<bool> {
    let mut transcript = Transcript::new(rt.alloc());
    let mut number: u64 = 0;
    'lines: for line in rt.lines(rt.alloc()) {
        let line = line?;
        number = number.saturating_add(1);
        match transcript.say(line.as_str())? {
            Said::Nothing => {}
            Said::Line(text) => rt.println(text.as_str())?,
            Said::Wrong => {
                println!(rt; "wrong line {number}")?;
                return Ok(false);
            }
            Said::Differs(text) => {
                rt.println(text.as_str())?;
                return Ok(false);
            }
        }
    }
    Ok(true)
}

fn main(rt: HostRuntime) -> Result<ExitCode> {
    if run(&rt)? {
        Ok(ExitCode::SUCCESS)
    } else {
        Ok(ExitCode::FAILURE)
    }
}
