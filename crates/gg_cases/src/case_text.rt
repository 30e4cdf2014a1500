//! A case file, cut into its lines and sections.

use std::alloc::{AllocError, Global};

/// A line of the commands, and its number in the file, from 1.
#[derive(Clone, Copy)]
pub struct Line<'a> {
    pub number: usize,
    pub text: &'a str,
}

/// A section: the number of its first line, what stands there between the marks, and its lines, each with its line feed.
#[derive(Drop)]
pub struct SectionText<'a> {
    pub number: usize,
    pub head: &'a str,
    pub lines: Vec<&'a str>,
}

/// A case file, cut into the lines of its commands and its sections.
#[derive(Drop)]
pub struct CaseText<'a> {
    pub commands: Vec<Line<'a>>,
    pub sections: Vec<SectionText<'a>>,
}

/// A line without its line feed.
pub fn without_feed(line: &str) -> &str {
    line.strip_suffix('\n').unwrap_or(line)
}

/// What stands between the marks of a section's first line.
fn head_of(line: &str) -> Option<&str> {
    without_feed(line).strip_prefix("-- ")?.strip_suffix(" --")
}

impl<'a> CaseText<'a> {
    /// Cuts a text. The lines up to the first empty one say what the file is about, and are no commands.
    pub fn cut(alloc: Global, text: &'a str) -> Result<Self, AllocError> {
        let mut cut = CaseText {
            commands: Vec::new(alloc),
            sections: Vec::new(alloc),
        };
        let mut number = 0usize;
        let mut in_prose = true;
        for line in text.split_inclusive('\n') {
            number = number.saturating_add(1);
            if in_prose {
                in_prose = line != "\n";
            } else if let Some(head) = head_of(line) {
                cut.begin_section(alloc, number, head)?;
            } else {
                cut.add(number, line)?;
            }
        }
        Ok(cut)
    }

    /// Begins a section.
    fn begin_section(
        &mut self,
        alloc: Global,
        number: usize,
        head: &'a str,
    ) -> Result<(), AllocError> {
        let lines = Vec::new(alloc);
        self.sections.push(SectionText {
            number,
            head,
            lines,
        })?;
        Ok(())
    }

    /// Adds a line to the last section or, where there is none, to the commands.
    fn add(&mut self, number: usize, line: &'a str) -> Result<(), AllocError> {
        if self.sections.is_empty() {
            return add_command(&mut self.commands, number, line);
        }
        add_to_last(&mut self.sections, line)
    }
}

/// Adds a line of the commands.
fn add_command<'a>(
    commands: &mut Vec<Line<'a>>,
    number: usize,
    line: &'a str,
) -> Result<(), AllocError> {
    let text = without_feed(line);
    commands.push(Line { number, text })?;
    Ok(())
}

/// Adds a line to the last of some sections.
fn add_to_last<'a>(sections: &mut Vec<SectionText<'a>>, line: &'a str) -> Result<(), AllocError> {
    if let Some(section) = sections.last_mut() {
        section.lines.push(line)?;
    }
    Ok(())
}
