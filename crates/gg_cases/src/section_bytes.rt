//! The bytes of a section, from its lines and marks.

use crate::wrong::Wrong;
use object_name::Bytes;
use std::alloc::{AllocError, Global};

/// What the marks behind a section's name say.
#[derive(Drop)]
pub struct Marks {
    /// Whether the bytes lie somewhere when a case begins.
    pub held: bool,
    /// Whether `\xHH` stands for a byte.
    pub escaped: bool,
    /// How many times over the bytes are taken.
    pub times: usize,
}

impl Marks {
    pub fn none() -> Self {
        Marks {
            held: true,
            escaped: false,
            times: 1,
        }
    }

    /// The marks of a text such as `escaped) (times 2)`.
    pub fn read(text: &str) -> Option<Marks> {
        let mut marks = Marks::none();
        for mark in text.strip_suffix(')')?.split(") (") {
            match mark {
                "not held" => marks.held = false,
                "escaped" => marks.escaped = true,
                _ => marks.times = mark.strip_prefix("times ")?.parse::<usize>().ok()?,
            }
        }
        Some(marks)
    }
}

/// The text of some lines. A `\` at the very end takes itself and the line feed behind it away.
pub fn joined(alloc: Global, lines: &[&str]) -> Result<String, AllocError> {
    let mut text = String::new(alloc);
    if let Some((last, others)) = lines.split_last() {
        for line in others {
            text.push_str(line)?;
        }
        let whole = last.strip_suffix("\\\n").or(last.strip_suffix('\\'));
        text.push_str(whole.unwrap_or(last))?;
    }
    Ok(text)
}

/// Appends the byte of two digits, and what stands behind them.
fn append_escape(bytes: &mut Bytes, piece: &[u8]) -> Result<Option<()>, AllocError> {
    let Some((digits, rest)) = piece.split_at_checked(2) else {
        return Ok(None);
    };
    let mut byte = [0u8; 1];
    if hex::decode_to_slice(digits, &mut byte).is_err() || rest.contains(&b'\\') {
        return Ok(None);
    }
    bytes.append(&byte)?;
    bytes.append(rest)?;
    Ok(Some(()))
}

/// The bytes of a text in which `\xHH` stands for a byte. There are none where a `\` stands for itself.
fn unescaped(alloc: Global, text: &str) -> Result<Option<Bytes>, AllocError> {
    let mut pieces = text.split("\\x");
    let mut bytes = Bytes::new(alloc);
    if let Some(first) = pieces.next() {
        if first.contains('\\') {
            return Ok(None);
        }
        bytes.append(first.as_bytes())?;
    }
    for piece in pieces {
        if append_escape(&mut bytes, piece.as_bytes())?.is_none() {
            return Ok(None);
        }
    }
    Ok(Some(bytes))
}

/// Some bytes, so many times over.
fn repeated(alloc: Global, bytes: Bytes, times: usize) -> Result<Bytes, AllocError> {
    if times == 1 {
        return Ok(bytes);
    }
    if let [byte] = bytes.as_slice() {
        return Ok(Bytes(vec![in alloc; *byte; times]?));
    }
    let mut all = Bytes::new(alloc);
    for _ in 0..times {
        all.append(bytes.as_slice())?;
    }
    Ok(all)
}

/// The bytes of a section's text with these marks.
pub fn marked_bytes(
    alloc: Global,
    number: usize,
    text: &str,
    marks: &Marks,
) -> Result<Bytes, Wrong> {
    let bytes = if marks.escaped {
        unescaped(alloc, text)?.ok_or(Wrong::Form {
            number,
            why: "a backslash without x and two digits",
        })?
    } else {
        Bytes::from_slice(alloc, text.as_bytes())?
    };
    Ok(repeated(alloc, bytes, marks.times)?)
}
