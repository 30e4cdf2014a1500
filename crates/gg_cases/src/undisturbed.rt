//! What the last command did, beside what it does where something is otherwise.

use crate::command::Ran;
use crate::differences::{expect_line, expect_lines, writes_line};
use crate::playing::Last;
use crate::recorder::Write;
use crate::sections::Sections;
use crate::wrong::Wrong;
use std::alloc::Global;

/// What is said of the files where all are as the undisturbed command leaves them.
const ALL_CHANGED: &str = "all files are changed";

/// What is said of the files where not all are.
const NOT_ALL_CHANGED: &str = "not all files are changed";

/// What is said of the files where none is changed.
const NONE_CHANGED: &str = "no file is changed";

/// The last command as it ran undisturbed, and the line that looks back at it.
#[derive(Drop)]
pub struct Undisturbed<'a> {
    pub alloc: Global,
    pub number: usize,
    pub sections: &'a Sections,
    pub last: &'a Last,
}

impl Undisturbed<'_> {
    /// The undisturbed answer was printed.
    pub fn answers(&self, ran: &Ran) -> Result<(), Wrong> {
        let expected = self.last.ran.transcript(self.alloc)?;
        let got = ran.transcript(self.alloc)?;
        expect_lines(
            self.alloc,
            self.number,
            expected.as_slice(),
            got.as_slice(),
            self.sections,
            &ran.left,
        )
    }

    /// All that the undisturbed command writes was written, and nothing else.
    pub fn has_left_all(&self, ran: &Ran) -> Result<(), Wrong> {
        self.wrote(self.last.ran.writes.as_slice(), ran.writes.as_slice())?;
        self.has_all_files(ran)
    }

    /// These writes were made.
    pub fn wrote(&self, expected: &[Write], got: &[Write]) -> Result<(), Wrong> {
        let expected = writes_line(self.alloc, expected)?;
        let got = writes_line(self.alloc, got)?;
        expect_line(self.alloc, self.number, expected.as_str(), got.as_str())
    }

    /// All files that the undisturbed command changes are changed so.
    pub fn has_all_files(&self, ran: &Ran) -> Result<(), Wrong> {
        self.has_files(ran, ALL_CHANGED)
    }

    /// Not all files that it changes are changed so, where it changes some.
    pub fn lacks_files(&self, ran: &Ran) -> Result<(), Wrong> {
        self.has_files(ran, NOT_ALL_CHANGED)
    }

    fn has_files(&self, ran: &Ran, expected: &str) -> Result<(), Wrong> {
        let undisturbed = &self.last.ran.left.files;
        if expected == NOT_ALL_CHANGED && self.last.before.files == *undisturbed {
            return Ok(());
        }
        let got = if ran.left.files == *undisturbed {
            ALL_CHANGED
        } else {
            NOT_ALL_CHANGED
        };
        expect_line(self.alloc, self.number, expected, got)
    }

    /// No file is changed.
    pub fn has_no_file(&self, ran: &Ran) -> Result<(), Wrong> {
        let got = if ran.left.files == self.last.before.files {
            NONE_CHANGED
        } else {
            NOT_ALL_CHANGED
        };
        expect_line(self.alloc, self.number, NONE_CHANGED, got)
    }
}
