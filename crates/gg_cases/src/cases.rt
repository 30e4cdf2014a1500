//! The cases of a file, each a list of steps.

use crate::case_text::Line;
use crate::wrong::Wrong;
use std::alloc::{AllocError, Global};

/// A line that does or looks at something, and the lines behind it that say what it prints.
#[derive(Drop)]
pub struct Step<'a> {
    pub line: Line<'a>,
    pub printed: Vec<Line<'a>>,
}

/// A case: its steps and, where it must fail, the lines that its report must have.
#[derive(Drop)]
pub struct Case<'a> {
    pub name: &'a str,
    pub steps: Vec<Step<'a>>,
    pub must_print: Vec<Line<'a>>,
}

impl<'a> Case<'a> {
    fn new(alloc: Global, name: &'a str) -> Self {
        Case {
            name,
            steps: Vec::new(alloc),
            must_print: Vec::new(alloc),
        }
    }

    fn is_empty(&self) -> bool {
        self.steps.is_empty() && self.must_print.is_empty()
    }

    /// Adds a line of this case.
    fn add(&mut self, alloc: Global, line: Line<'a>) -> Result<(), Wrong> {
        if line.text.is_empty() || line.text.starts_with('#') {
            return Ok(());
        }
        if let Some(text) = line.text.strip_prefix("must print ") {
            let number = line.number;
            self.must_print.push(Line { number, text })?;
            return Ok(());
        }
        if line.text.starts_with(['>', '!', '=']) {
            return self.add_printed(line);
        }
        let printed = Vec::new(alloc);
        self.steps.push(Step { line, printed })?;
        Ok(())
    }

    /// Adds a line that says what the command before it prints.
    fn add_printed(&mut self, line: Line<'a>) -> Result<(), Wrong> {
        match self.steps.last_mut() {
            Some(step) if step.line.text.starts_with('$') => {
                step.printed.push(line)?;
                Ok(())
            }
            _ => Err(Wrong::Form {
                number: line.number,
                why: "no command stands before this line",
            }),
        }
    }
}

/// Cases that were read, and the one that is being read.
#[derive(Drop)]
struct Reading<'a> {
    cases: Vec<Case<'a>>,
    case: Case<'a>,
}

impl<'a> Reading<'a> {
    /// Takes a line: it begins a case, or belongs to the one that is being read.
    fn take(&mut self, alloc: Global, line: Line<'a>) -> Result<(), Wrong> {
        let Some(name) = line.text.strip_prefix("case ") else {
            return self.case.add(alloc, line);
        };
        let done = std::mem::replace(&mut self.case, Case::new(alloc, name));
        push_case(&mut self.cases, done)?;
        Ok(())
    }

    /// All cases.
    fn into_cases(self) -> Result<Vec<Case<'a>>, AllocError> {
        let Reading { mut cases, case } = self;
        push_case(&mut cases, case)?;
        Ok(cases)
    }
}

/// The cases of some lines. The lines before the first `case` line are a case of the file's name.
pub fn cases_of<'a>(
    alloc: Global,
    name: &'a str,
    lines: &[Line<'a>],
) -> Result<Vec<Case<'a>>, Wrong> {
    let mut reading = Reading {
        cases: Vec::new(alloc),
        case: Case::new(alloc, name),
    };
    for line in lines {
        reading.take(alloc, *line)?;
    }
    Ok(reading.into_cases()?)
}

/// Appends a case that has steps.
fn push_case<'a>(cases: &mut Vec<Case<'a>>, case: Case<'a>) -> Result<(), AllocError> {
    if !case.is_empty() {
        cases.push(case)?;
    }
    Ok(())
}
