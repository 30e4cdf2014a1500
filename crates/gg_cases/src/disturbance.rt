//! The last command again, with failing calls.

use crate::command::{Ran, run};
use crate::differences::{calls_line, expect_line, expect_lines};
use crate::part::{Failing, Part};
use crate::recorder::Write;
use crate::scene::Scene;
use crate::undisturbed::Undisturbed;
use crate::wrong::Wrong;
use std::alloc::{AllocError, Global};
use std::sync::Wait;
use std::thread::Threads;

/// How a command is disturbed: of which part so many calls in a row fail, and whether it goes on.
#[derive(Clone, Copy)]
struct Disturbance {
    part: Part,
    times: u64,
    goes_on: bool,
}

impl Disturbance {
    /// Reads `store call fails`, with `N times` and `and goes on` behind it or not.
    fn read(text: &str) -> Option<Self> {
        let (part, rest) = text.split_once(' ')?;
        let part = Part::read(part)?;
        let rest = rest.strip_prefix("call fails")?;
        let (rest, goes_on) = match rest.strip_suffix(" and goes on") {
            Some(rest) => (rest, true),
            None => (rest, false),
        };
        let times = if rest.is_empty() {
            1
        } else {
            rest.strip_prefix(' ')?
                .strip_suffix(" times")?
                .parse::<u64>()
                .ok()?
        };
        Some(Disturbance {
            part,
            times,
            goes_on,
        })
    }

    /// The calls that fail, from one on.
    fn failing(&self, alloc: Global, first: u64) -> Result<Failing, AllocError> {
        let mut failing = Failing::none(alloc);
        for further in 0..self.times {
            failing.add(self.part, first.saturating_add(further))?;
        }
        Ok(failing)
    }

    /// How the command must end, as a case says it.
    fn ending(&self) -> (&'static str, &'static str) {
        match self.part {
            Part::Store => ("! gg: store fault", "= 12"),
            Part::Files => ("! gg: file fault", "= 13"),
            Part::Input => ("! gg: input fault", "= 14"),
            Part::Output => ("! gg: output fault", "= 14"),
        }
    }
}

/// Does the last command again where each call that it made fails.
pub fn disturb<'a, R: Threads + Wait + Sync>(
    rt: &'a R,
    undisturbed: &'a Undisturbed<'a>,
    text: &str,
) -> Result<(), Wrong> {
    let disturbance = Disturbance::read(text).ok_or(Wrong::Form {
        number: undisturbed.number,
        why: "not `each PART call fails`",
    })?;
    let calls = undisturbed.last.ran.calls.of(disturbance.part);
    for before in 0..calls {
        let first = before.saturating_add(1);
        let disturbed = Disturbed {
            rt,
            undisturbed,
            disturbance,
            first,
        };
        if let Err(wrong) = disturbed.compare() {
            return Err(with_call(undisturbed.alloc, wrong, disturbance.part, first));
        }
    }
    Ok(())
}

/// What is wrong, with a line in front that says which call fails.
fn with_call(alloc: Global, wrong: Wrong, part: Part, call: u64) -> Wrong {
    match wrong {
        Wrong::Differs { number, shown } => match in_front(alloc, part, call, shown) {
            Ok(shown) => Wrong::Differs { number, shown },
            Err(AllocError) => Wrong::Memory,
        },
        other => other,
    }
}

/// Some lines with one in front that says which call fails.
fn in_front(
    alloc: Global,
    part: Part,
    call: u64,
    lines: Vec<String>,
) -> Result<Vec<String>, AllocError> {
    let word = part.word();
    let mut all = Vec::new(alloc);
    all.push(format!(in alloc; "where {word} call {call} fails:")?)?;
    for line in lines {
        all.push(line)?;
    }
    Ok(all)
}

/// How many writes were made before a call.
fn before_call(writes: &[Write], call: u64) -> usize {
    let mut number = 0usize;
    for write in writes {
        if write.call < call {
            number = number.saturating_add(1);
        }
    }
    number
}

/// The last command again, where calls from one on fail.
#[derive(Drop)]
struct Disturbed<'a, R> {
    rt: &'a R,
    undisturbed: &'a Undisturbed<'a>,
    disturbance: Disturbance,
    first: u64,
}

impl<R: Threads + Wait + Sync> Disturbed<'_, R> {
    fn compare(&self) -> Result<(), Wrong> {
        let failing = self
            .disturbance
            .failing(self.undisturbed.alloc, self.first)?;
        let before = self.undisturbed.last.before.copy(self.undisturbed.alloc)?;
        let ran = self.run_over(before, failing)?;
        if self.disturbance.goes_on {
            return self.goes_on(&ran);
        }
        self.ends(&ran)?;
        match self.disturbance.part {
            Part::Output => self.undisturbed.has_left_all(&ran),
            Part::Input => self.has_left_nothing(ran),
            Part::Store | Part::Files => self.goes_on_again(ran),
        }
    }

    /// Runs the command again over a store and files.
    fn run_over(&self, scene: Scene, failing: Failing) -> Result<Ran, Wrong> {
        let task = &self.undisturbed.last.task;
        run(
            self.rt,
            self.undisturbed.alloc,
            self.undisturbed.number,
            task,
            scene,
            failing,
        )
    }

    /// The undisturbed answer comes, with some calls more.
    fn goes_on(&self, ran: &Ran) -> Result<(), Wrong> {
        self.undisturbed.answers(ran)?;
        self.undisturbed.has_left_all(ran)?;
        let Disturbance { part, times, .. } = self.disturbance;
        let expected = self.undisturbed.last.ran.calls.with_further(part, times);
        for part in [Part::Store, Part::Files, Part::Input, Part::Output] {
            self.made_calls(ran, part, expected.of(part))?;
        }
        Ok(())
    }

    /// The fault's answer comes, after the last of the failing calls.
    fn ends(&self, ran: &Ran) -> Result<(), Wrong> {
        let expected = self.ending()?;
        let got = self.printed(ran)?;
        expect_lines(
            self.undisturbed.alloc,
            self.undisturbed.number,
            expected.as_slice(),
            got.as_slice(),
            self.undisturbed.sections,
            &ran.left,
        )?;
        let calls = self
            .first
            .saturating_add(self.disturbance.times)
            .saturating_sub(1);
        self.made_calls(ran, self.disturbance.part, calls)
    }

    /// What a command that the fault ends must print.
    fn ending(&self) -> Result<Vec<String>, AllocError> {
        let (line, status) = self.disturbance.ending();
        let mut lines = Vec::new(self.undisturbed.alloc);
        lines.push(String::from_str(self.undisturbed.alloc, line)?)?;
        lines.push(String::from_str(self.undisturbed.alloc, status)?)?;
        Ok(lines)
    }

    /// What was printed, but for a prefix of the undisturbed text that a failing output has taken.
    fn printed(&self, ran: &Ran) -> Result<Vec<String>, AllocError> {
        if self.printed_a_prefix(ran) {
            return ran.faults(self.undisturbed.alloc);
        }
        ran.transcript(self.undisturbed.alloc)
    }

    /// Whether a failing output has taken a prefix of the undisturbed text.
    fn printed_a_prefix(&self, ran: &Ran) -> bool {
        match self.disturbance.part {
            Part::Output => self
                .undisturbed
                .last
                .ran
                .out
                .as_slice()
                .starts_with(ran.out.as_slice()),
            Part::Store | Part::Files | Part::Input => false,
        }
    }

    /// So many calls of a part were made.
    fn made_calls(&self, ran: &Ran, part: Part, calls: u64) -> Result<(), Wrong> {
        let word = part.word();
        let expected = format!(in self.undisturbed.alloc; "calls {word} {calls}")?;
        let got = calls_line(self.undisturbed.alloc, ran, part)?;
        expect_line(
            self.undisturbed.alloc,
            self.undisturbed.number,
            expected.as_str(),
            got.as_str(),
        )
    }

    /// Nothing was written, no file is changed, and the same command over what is left does all.
    fn has_left_nothing(&self, ran: Ran) -> Result<(), Wrong> {
        self.undisturbed.wrote(&[], ran.writes.as_slice())?;
        self.undisturbed.has_no_file(&ran)?;
        self.goes_on_again(ran)
    }

    /// How many of the undisturbed command's writes were to be made before a call failed.
    fn writes_before(&self, ran: &Ran) -> usize {
        let all = self.undisturbed.last.ran.writes.as_slice();
        match self.disturbance.part {
            Part::Store => before_call(all, self.first),
            Part::Files | Part::Input | Part::Output => ran.writes.len(),
        }
    }

    /// The writes before the failing call were made, and the same command over what is left makes the others.
    fn goes_on_again(&self, ran: Ran) -> Result<(), Wrong> {
        self.undisturbed.lacks_files(&ran)?;
        let all = self.undisturbed.last.ran.writes.as_slice();
        let before = self.writes_before(&ran).min(all.len());
        let (made, others) = all.split_at(before);
        self.undisturbed.wrote(made, ran.writes.as_slice())?;
        let Ran { left, .. } = ran;
        let again = self.run_over(left, Failing::none(self.undisturbed.alloc))?;
        self.undisturbed.answers(&again)?;
        self.undisturbed.wrote(others, again.writes.as_slice())?;
        self.undisturbed.has_all_files(&again)
    }
}
