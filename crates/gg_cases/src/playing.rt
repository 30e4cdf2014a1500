//! A case, step by step.

use crate::cases::{Case, Step};
use crate::command::{Ran, Task, run};
use crate::differences::{calls_line, expect_bytes, expect_line, expect_lines, writes_line};
use crate::disturbance::disturb;
use crate::links::LinkScripts;
use crate::over_links::do_over_links;
use crate::part::{Failing, Part};
use crate::scene::Scene;
use crate::sections::{Sections, path_of};
use crate::undisturbed::Undisturbed;
use crate::wrong::Wrong;
use object_name::{Bytes, TryCopy};
use std::alloc::{AllocError, Global};
use std::mem::replace;
use std::sync::Wait;
use std::thread::Threads;

/// The last command: where it began, and what it did.
#[derive(Drop)]
pub struct Last {
    pub number: usize,
    pub task: Task,
    pub before: Scene,
    pub ran: Ran,
}

impl Last {
    /// The store and the files that it left.
    fn into_left(self) -> Scene {
        let Last { ran, .. } = self;
        let Ran { left, .. } = ran;
        left
    }
}

/// Where a case stands.
#[derive(Drop)]
struct Play<'a, R> {
    rt: &'a R,
    alloc: Global,
    sections: &'a Sections,
    start: Scene,
    input: Bytes,
    failing: Failing,
    links: LinkScripts,
    last: Option<Last>,
}

/// What is said of a word that names no part.
const NO_PART: &str = "neither store, files, input nor output";

/// A fault of form.
fn bad(number: usize, why: &'static str) -> Wrong {
    Wrong::Form { number, why }
}

/// The words of a command line, cut at single blanks.
fn words_of(alloc: Global, text: &str) -> Result<Vec<String>, AllocError> {
    let mut words = Vec::new(alloc);
    if !text.is_empty() {
        for word in text.split(' ') {
            words.push(String::from_str(alloc, word)?)?;
        }
    }
    Ok(words)
}

/// Plays a case.
pub fn play_case<R: Threads + Wait + Sync>(
    rt: &R,
    alloc: Global,
    sections: &Sections,
    case: &Case<'_>,
) -> Result<(), Wrong> {
    let mut play = Play {
        rt,
        alloc,
        sections,
        start: Scene::of(alloc, sections)?,
        input: Bytes::new(alloc),
        failing: Failing::none(alloc),
        links: LinkScripts::none(alloc),
        last: None,
    };
    for step in case.steps.as_slice() {
        play.step(step)?;
    }
    Ok(())
}

impl<R: Threads + Wait + Sync> Play<'_, R> {
    fn step(&mut self, step: &Step<'_>) -> Result<(), Wrong> {
        let number = step.line.number;
        let text = self
            .sections
            .substituted(self.alloc, number, step.line.text)?;
        let (word, rest) = text.split_once(' ').unwrap_or((text.as_str(), ""));
        match word {
            "$" => self.command(step, rest),
            "input" => self.read_from(number, rest),
            "link" => self.links.add(self.alloc, number, rest),
            "failing" => self.fail(number, rest),
            "file" | "note" | "object" => self.holds(number, word, rest),
            "placeholder" => self.is_placeholder(number, rest),
            "absent" => self.is_absent(number, rest),
            "writes" | "calls" => self.looks_back(number, text.as_str()),
            "each" | "over" => self.does_again(number, word, rest),
            _ => Err(bad(number, "not a line of a case")),
        }
    }

    /// Runs a command line, and compares what it prints.
    fn command(&mut self, step: &Step<'_>, text: &str) -> Result<(), Wrong> {
        let alloc = self.alloc;
        let number = step.line.number;
        let words = words_of(alloc, text)?;
        let before = match self.last.take() {
            Some(last) => last.into_left(),
            None => self.start.copy(alloc)?,
        };
        let task = Task {
            words,
            input: self.input.copy(alloc)?,
            links: replace(&mut self.links, LinkScripts::none(alloc)),
        };
        let failing = replace(&mut self.failing, Failing::none(alloc));
        let ran = run(self.rt, alloc, number, &task, before.copy(alloc)?, failing)?;
        let expected = self.expected(step)?;
        let got = ran.transcript(alloc)?;
        expect_lines(
            alloc,
            number,
            expected.as_slice(),
            got.as_slice(),
            self.sections,
            &ran.left,
        )?;
        self.last = Some(Last {
            number,
            task,
            before,
            ran,
        });
        Ok(())
    }

    /// The lines that a command must print.
    fn expected(&self, step: &Step<'_>) -> Result<Vec<String>, Wrong> {
        let mut lines = Vec::new(self.alloc);
        for line in step.printed.as_slice() {
            let text = self
                .sections
                .substituted(self.alloc, line.number, line.text)?;
            if text.as_str() != "= 0" {
                lines.push(text)?;
            }
        }
        Ok(lines)
    }

    /// Names the section that the next commands read.
    fn read_from(&mut self, number: usize, name: &str) -> Result<(), Wrong> {
        self.input = self.sections.get(number, name)?.bytes.copy(self.alloc)?;
        Ok(())
    }

    /// Lists calls of the next command that fail.
    fn fail(&mut self, number: usize, text: &str) -> Result<(), Wrong> {
        let (word, calls) = text
            .split_once(' ')
            .ok_or(bad(number, "no calls are listed"))?;
        let part = Part::read(word).ok_or(bad(number, NO_PART))?;
        for call in calls.split(' ') {
            let call = call.parse::<u64>().ok();
            self.failing
                .add(part, call.ok_or(bad(number, "not a number"))?)?;
        }
        Ok(())
    }

    /// The store and the files as they are now.
    fn now(&self) -> &Scene {
        match &self.last {
            Some(last) => &last.ran.left,
            None => &self.start,
        }
    }

    /// Compares a file, or what is kept under a name, with a section.
    fn holds(&self, number: usize, word: &str, text: &str) -> Result<(), Wrong> {
        let (place, name) = text
            .split_once(' ')
            .ok_or(bad(number, "no section is named"))?;
        let expected = self.sections.get(number, name)?.bytes.as_slice();
        let got = match word {
            "file" => self.now().file(&path_of(self.alloc, number, place)?),
            "note" => self.now().note(&self.sections.content_name(number, place)?),
            _ => self
                .now()
                .object(&self.sections.content_name(number, place)?),
        };
        expect_bytes(self.alloc, number, expected, got)
    }

    fn is_placeholder(&self, number: usize, text: &str) -> Result<(), Wrong> {
        let (path, reference) = text
            .split_once(' ')
            .ok_or(bad(number, "no reference is given"))?;
        let expected = format!(in self.alloc; "gg-placeholder 1\n{reference}\n")?;
        let path = path_of(self.alloc, number, path)?;
        let got = self.now().file(&path);
        expect_bytes(self.alloc, number, expected.as_bytes(), got)
    }

    fn is_absent(&self, number: usize, text: &str) -> Result<(), Wrong> {
        let path = path_of(self.alloc, number, text)?;
        let got = match self.now().file(&path) {
            Some(_) => "present",
            None => "absent",
        };
        expect_line(self.alloc, number, "absent", got)
    }

    /// The last command.
    fn last_at(&self, number: usize) -> Result<&Last, Wrong> {
        self.last
            .as_ref()
            .ok_or(bad(number, "no command stands before this line"))
    }

    /// Compares the last command's writes or calls.
    fn looks_back(&self, number: usize, text: &str) -> Result<(), Wrong> {
        let alloc = self.alloc;
        let last = self.last_at(number)?;
        let got = match text.strip_prefix("calls ") {
            Some(text) => {
                let word = text.split(' ').next().unwrap_or("");
                let part = Part::read(word);
                calls_line(alloc, &last.ran, part.ok_or(bad(number, NO_PART))?)?
            }
            None => writes_line(alloc, last.ran.writes.as_slice())?,
        };
        expect_line(alloc, number, text, got.as_str())
    }

    /// Does the last command again, where calls fail or over links.
    fn does_again(&self, number: usize, word: &str, text: &str) -> Result<(), Wrong> {
        let undisturbed = Undisturbed {
            alloc: self.alloc,
            number,
            sections: self.sections,
            last: self.last_at(number)?,
        };
        if word == "each" {
            return disturb(self.rt, &undisturbed, text);
        }
        do_over_links(self.rt, &undisturbed, text)
    }
}
