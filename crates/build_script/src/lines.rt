//! The lines of a build script.

ghost use Rattle.std.specs.Prelude.{◌≡◌, IfOk};
ghost use Rattle.build_script.specs.ScriptLines.{no_lines, with_text, line_ended, joined, after_other, after_backslash, with_byte, with_bytes, at_end, script_lines};

use file_tree::place_after;
use object_name::{Bytes, Many};
use std::alloc::{AllocError, Global};

/// A line, with those that were joined to it.
#[derive(Debug, Drop)]
pub struct ScriptLine {
    /// The number of its first line, from 1; a number that would pass 4,294,967,295 is that.
    pub number: u32,
    pub text: Bytes,
}

/// What is read of a text.
#[derive(Drop)]
pub(crate) struct ScriptLines {
    /// The lines that are complete.
    pub(crate) lines: Many<ScriptLine>,
    /// The number of the first of the lines that are joined to the one that is read.
    pub(crate) first: u32,
    /// The number of the last of them.
    pub(crate) number: u32,
    /// The line that is read.
    pub(crate) text: Bytes,
    /// Whether a backslash waits for the byte behind it.
    pub(crate) has_backslash: bool,
}

impl ScriptLines {
    fn new(alloc: Global) -> Self
        ensures { result ≡ no_lines }
    {
        ScriptLines {
            lines: Many::new(alloc),
            first: 1,
            number: 1,
            text: Bytes::new(alloc),
            has_backslash: false,
        }
    }

    /// With some bytes in the line.
    fn with_text(mut self, bytes: &[u8]) -> Result<Self, AllocError>
        ensures { IfOk result (λ more. more ≡ with_text bytes.now self) }
    {
        self.text.append(bytes)?;
        self.has_backslash = false;
        Ok(self)
    }

    /// With the line complete.
    fn line_ended(self, alloc: Global) -> Result<Self, AllocError>
        ensures { IfOk result (λ more. more ≡ line_ended self) }
    {
        let ScriptLines {
            mut lines,
            first,
            number,
            text,
            ..
        } = self;
        lines.push(ScriptLine {
            number: first,
            text,
        })?;
        let next = place_after(number);
        Ok(ScriptLines {
            lines,
            first: next,
            number: next,
            text: Bytes::new(alloc),
            has_backslash: false,
        })
    }

    /// With the next line joined to this one.
    fn joined(mut self) -> Self
        ensures { result ≡ joined self }
    {
        self.number = place_after(self.number);
        self.has_backslash = false;
        self
    }

    /// With a byte that is behind no backslash.
    #[tactic(auto, unfolding(crate::specs::ScriptLines::after_other))]
    fn after_other(mut self, alloc: Global, byte: u8) -> Result<Self, AllocError>
        ensures { IfOk result (λ more. more ≡ after_other byte self) }
    {
        if byte == b'\n' {
            return self.line_ended(alloc);
        }
        if byte == b'\\' {
            self.has_backslash = true;
            return Ok(self);
        }
        self.with_text(&[byte])
    }

    /// With a byte behind a backslash.
    #[tactic(auto, unfolding(crate::specs::ScriptLines::after_backslash))]
    fn after_backslash(self, alloc: Global, byte: u8) -> Result<Self, AllocError>
        ensures { IfOk result (λ more. more ≡ after_backslash byte self) }
    {
        if byte == b'\n' {
            return Ok(self.joined());
        }
        let more = self.with_text(b"\\")?;
        more.after_other(alloc, byte)
    }

    /// With one byte more.
    fn with_byte(self, alloc: Global, byte: u8) -> Result<Self, AllocError>
        ensures { IfOk result (λ more. more ≡ with_byte self.has_backslash byte self) }
    {
        if self.has_backslash {
            return self.after_backslash(alloc, byte);
        }
        self.after_other(alloc, byte)
    }

    /// With all bytes of a text.
    fn read(alloc: Global, text: &[u8]) -> Result<Self, AllocError>
        ensures { IfOk result (λ given. given ≡ with_bytes text.now no_lines) }
    {
        let mut given = ScriptLines::new(alloc);
        let mut rest = text;
        'bytes: while let [byte, others @ ..] = rest {
            let more = given.with_byte(alloc, *byte)?;
            given = more;
            rest = others;
        }
        Ok(given)
    }

    /// At the end of the text.
    fn at_end(self, alloc: Global) -> Result<Self, AllocError>
        ensures { IfOk result (λ last. last ≡ at_end self.has_backslash self) }
    {
        if self.has_backslash {
            let more = self.with_text(b"\\")?;
            return more.line_ended(alloc);
        }
        self.line_ended(alloc)
    }
}

/// The lines of a build script. A backslash before a line feed joins two lines, whatever stands around
/// it.
pub fn script_lines(alloc: Global, text: &[u8]) -> Result<Many<ScriptLine>, AllocError>
    ensures { IfOk result (λ lines. lines ≡ script_lines text.now) }
{
    let given = ScriptLines::read(alloc, text)?;
    let last = given.at_end(alloc)?;
    Ok(last.lines)
}
