//! What differs from what a case says, as a diff shows it.

use crate::command::Ran;
use crate::part::Part;
use crate::recorder::{Shelf, Write};
use crate::scene::Scene;
use crate::sections::{Sections, spelled};
use crate::wrong::Wrong;
use object_name::{Bytes, Name};
use std::alloc::{AllocError, Global};

/// How many bytes are shown of some bytes.
const SHOWN: usize = 2_000;

/// Whether a byte is shown as it is.
fn is_plain(byte: u8) -> bool {
    byte >= b' ' && byte <= b'~' && byte != b'\\'
}

/// Appends a byte as it is shown.
fn push_byte(text: &mut String, byte: u8) -> Result<(), AllocError> {
    if byte == b'\n' {
        return text.push_str("\\n");
    }
    if is_plain(byte) {
        return text.push(char::from(byte));
    }
    write!(text, "\\x{byte:02x}")
}

/// Some bytes as they are shown, behind a mark: as far as a line of a reasonable length goes.
fn shown(alloc: Global, mark: &str, bytes: &[u8]) -> Result<String, AllocError> {
    let mut text = String::from_str(alloc, mark)?;
    text.push('"')?;
    for byte in bytes.iter().take(SHOWN) {
        push_byte(&mut text, *byte)?;
    }
    text.push_str(if bytes.len() > SHOWN { "\" .." } else { "\"" })?;
    Ok(text)
}

/// A text behind a mark.
pub fn marked(alloc: Global, mark: &str, text: &str) -> Result<String, AllocError> {
    format!(in alloc; "{mark}{text}")
}

/// One line must be another.
pub fn expect_line(alloc: Global, number: usize, expected: &str, got: &str) -> Result<(), Wrong> {
    if expected == got {
        return Ok(());
    }
    let mut shown = Vec::new(alloc);
    shown.push(marked(alloc, "- ", expected)?)?;
    shown.push(marked(alloc, "+ ", got)?)?;
    Err(Wrong::Differs { number, shown })
}

/// Bytes that are there must be these bytes.
pub fn expect_bytes(
    alloc: Global,
    number: usize,
    expected: &[u8],
    got: Option<&Bytes>,
) -> Result<(), Wrong> {
    let mut lines = Vec::new(alloc);
    lines.push(shown(alloc, "- ", expected)?)?;
    match got {
        Some(bytes) if bytes.as_slice() == expected => return Ok(()),
        Some(bytes) => lines.push(shown(alloc, "+ ", bytes.as_slice())?)?,
        None => lines.push(String::from_str(alloc, "+ absent")?)?,
    }
    Err(Wrong::Differs {
        number,
        shown: lines,
    })
}

/// The name that a printed line begins with.
fn printed_name(line: &str) -> Option<Name> {
    let (name, _) = line.strip_prefix("> ")?.split_once(' ')?;
    Name::read(name.as_bytes())
}

/// Adds a line that differs and, where it names bytes that are known, these.
fn add_line(
    alloc: Global,
    lines: &mut Vec<String>,
    mark: &str,
    line: &str,
    known: Option<&Bytes>,
) -> Result<(), AllocError> {
    lines.push(marked(alloc, mark, line)?)?;
    if let Some(bytes) = known {
        let mark = format!(in alloc; "{mark}  ")?;
        lines.push(shown(alloc, mark.as_str(), bytes.as_slice())?)?;
    }
    Ok(())
}

/// How many lines are the same in both texts, from the first on.
fn common(expected: &[String], got: &[String]) -> usize {
    let mut same = 0usize;
    for (expected, got) in expected.iter().zip(got) {
        if expected != got {
            return same;
        }
        same = same.saturating_add(1);
    }
    same
}

/// The bytes that a printed line names, from the sections.
fn known_to<'a>(sections: &'a Sections, line: &str) -> Option<&'a Bytes> {
    let name = printed_name(line)?;
    sections.named(&name)
}

/// The bytes that a printed line names, from what was left.
fn left_in<'a>(left: &'a Scene, line: &str) -> Option<&'a Bytes> {
    let name = printed_name(line)?;
    left.object(&name)
}

/// Adds lines that must be there and aren't, from one on.
fn add_expected(
    alloc: Global,
    lines: &mut Vec<String>,
    first: usize,
    expected: &[String],
    sections: &Sections,
) -> Result<(), AllocError> {
    for line in expected.iter().skip(first) {
        add_line(alloc, lines, "- ", line, known_to(sections, line))?;
    }
    Ok(())
}

/// Adds lines that are there and mustn't be, from one on.
fn add_got(
    alloc: Global,
    lines: &mut Vec<String>,
    first: usize,
    got: &[String],
    left: &Scene,
) -> Result<(), AllocError> {
    for line in got.iter().skip(first) {
        add_line(alloc, lines, "+ ", line, left_in(left, line))?;
    }
    Ok(())
}

/// The lines that differ. What they name is shown from the sections and from what was left.
fn differing(
    alloc: Global,
    expected: &[String],
    got: &[String],
    sections: &Sections,
    left: &Scene,
) -> Result<Vec<String>, AllocError> {
    let same = common(expected, got);
    let mut lines = Vec::new(alloc);
    add_expected(alloc, &mut lines, same, expected, sections)?;
    add_got(alloc, &mut lines, same, got, left)?;
    Ok(lines)
}

/// Some lines must be others.
pub fn expect_lines(
    alloc: Global,
    number: usize,
    expected: &[String],
    got: &[String],
    sections: &Sections,
    left: &Scene,
) -> Result<(), Wrong> {
    let shown = differing(alloc, expected, got, sections, left)?;
    if shown.is_empty() {
        return Ok(());
    }
    Err(Wrong::Differs { number, shown })
}

/// Some writes, as a case says them.
pub fn writes_line(alloc: Global, writes: &[Write]) -> Result<String, AllocError> {
    let mut line = String::from_str(alloc, "writes")?;
    for write in writes {
        line.push_str(match write.shelf {
            Shelf::Objects => " ",
            Shelf::Notes => " note ",
        })?;
        line.push_str(spelled(alloc, &write.name)?.as_str())?;
    }
    Ok(line)
}

/// How many calls of a part were made, as a case says it.
pub fn calls_line(alloc: Global, ran: &Ran, part: Part) -> Result<String, AllocError> {
    let (word, count) = (part.word(), ran.calls.of(part));
    format!(in alloc; "calls {word} {count}")
}
