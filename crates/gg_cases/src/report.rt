//! The report of a case file.

use crate::case_text::{CaseText, Line};
use crate::cases::{Case, cases_of};
use crate::differences::marked;
use crate::playing::play_case;
use crate::sections::Sections;
use crate::wrong::Wrong;
use std::alloc::{AllocError, Global};
use std::sync::Wait;
use std::thread::Threads;

/// What is printed of a case file, and whether all its cases are as they must be.
#[derive(Drop)]
pub struct Report {
    pub ok: bool,
    pub lines: Vec<String>,
}

/// The name of a file without its folder and its ending.
fn name_of_file(path: &str) -> &str {
    let file = path.rsplit('/').next().unwrap_or(path);
    file.strip_suffix(".case").unwrap_or(file)
}

/// What is printed of a line that isn't of its form.
fn form_line(
    alloc: Global,
    name: &str,
    number: usize,
    why: &'static str,
) -> Result<String, AllocError> {
    format!(in alloc; "{name}: line {number}: {why}")
}

/// What is printed before the lines that differ.
fn differs_line(alloc: Global, name: &str, number: usize) -> Result<String, AllocError> {
    format!(in alloc; "{name}: line {number} differs:")
}

/// Adds what is printed of the outcome of a case.
fn add_outcome(
    alloc: Global,
    lines: &mut Vec<String>,
    name: &str,
    outcome: Result<(), Wrong>,
) -> Result<(), AllocError> {
    match outcome {
        Ok(()) => lines.push(marked(alloc, "ok ", name)?)?,
        Err(Wrong::Form { number, why }) => lines.push(form_line(alloc, name, number, why)?)?,
        Err(Wrong::Differs { number, shown }) => {
            lines.push(differs_line(alloc, name, number)?)?;
            add_all(lines, shown)?;
        }
        Err(Wrong::Memory) => return Err(AllocError),
    }
    Ok(())
}

/// Appends some lines.
fn add_all(lines: &mut Vec<String>, others: Vec<String>) -> Result<(), AllocError> {
    for line in others {
        lines.push(line)?;
    }
    Ok(())
}

/// The lines that a case that must fail has to print.
fn must_print(
    alloc: Global,
    sections: Option<&Sections>,
    lines: &[Line<'_>],
) -> Result<Vec<String>, Wrong> {
    let mut texts = Vec::new(alloc);
    for line in lines {
        texts.push(match sections {
            Some(sections) => sections.substituted(alloc, line.number, line.text)?,
            None => String::from_str(alloc, line.text)?,
        })?;
    }
    Ok(texts)
}

/// A case that must fail has to print these lines.
fn expect_failure(
    alloc: Global,
    number: usize,
    expected: Vec<String>,
    got: Vec<String>,
) -> Result<(), Wrong> {
    if expected == got {
        return Ok(());
    }
    let mut shown = Vec::new(alloc);
    for line in expected {
        shown.push(marked(alloc, "- ", line.as_str())?)?;
    }
    for line in got {
        shown.push(marked(alloc, "+ ", line.as_str())?)?;
    }
    Err(Wrong::Differs { number, shown })
}

impl Report {
    /// Adds the lines of an outcome.
    fn add(
        &mut self,
        alloc: Global,
        name: &str,
        outcome: Result<(), Wrong>,
    ) -> Result<(), AllocError> {
        self.ok = self.ok && outcome.is_ok();
        add_outcome(alloc, &mut self.lines, name, outcome)
    }

    /// Adds the outcome of a case, which has to be as it says or, where it must fail, to fail so.
    fn add_case(
        &mut self,
        alloc: Global,
        sections: Option<&Sections>,
        case: &Case<'_>,
        outcome: Result<(), Wrong>,
    ) -> Result<(), AllocError> {
        let Some(first) = case.must_print.first() else {
            return self.add(alloc, case.name, outcome);
        };
        let mut got = Vec::new(alloc);
        add_outcome(alloc, &mut got, case.name, outcome)?;
        let failure = match must_print(alloc, sections, case.must_print.as_slice()) {
            Ok(expected) => expect_failure(alloc, first.number, expected, got),
            Err(wrong) => Err(wrong),
        };
        self.add(alloc, case.name, failure)
    }

    /// Adds the cases of a file.
    fn add_file<R: Threads + Wait + Sync>(
        &mut self,
        rt: &R,
        alloc: Global,
        name: &str,
        text: &CaseText<'_>,
    ) -> Result<(), AllocError> {
        let commands = text.commands.as_slice();
        let cases = match cases_of(alloc, name, commands) {
            Ok(cases) => cases,
            Err(wrong) => return self.add(alloc, name, Err(wrong)),
        };
        match Sections::read(alloc, text.sections.as_slice()) {
            Ok(sections) => {
                for case in cases.as_slice() {
                    let outcome = play_case(rt, alloc, &sections, case);
                    self.add_case(alloc, Some(&sections), case, outcome)?;
                }
                Ok(())
            }
            Err(wrong) => self.add_malformed(alloc, name, cases, wrong),
        }
    }

    /// Adds what is wrong with the sections of a file; its first case may say that this must be so.
    fn add_malformed(
        &mut self,
        alloc: Global,
        name: &str,
        cases: Vec<Case<'_>>,
        wrong: Wrong,
    ) -> Result<(), AllocError> {
        match cases.first() {
            Some(case) => self.add_case(alloc, None, case, Err(wrong)),
            None => self.add(alloc, name, Err(wrong)),
        }
    }
}

/// Runs the cases of a file.
pub fn report_file<R: Threads + Wait + Sync>(
    rt: &R,
    alloc: Global,
    path: &str,
    text: &str,
) -> Result<Report, AllocError> {
    let mut report = Report {
        ok: true,
        lines: Vec::new(alloc),
    };
    let text = CaseText::cut(alloc, text)?;
    report.add_file(rt, alloc, name_of_file(path), &text)?;
    Ok(report)
}
