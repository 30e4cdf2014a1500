//! Bytes as they stand in a line.

use object_name::Bytes;
use std::alloc::{AllocError, Global};

/// The bytes of a text, in which `\n` stands for a line feed.
pub fn bytes_of(alloc: Global, text: &str) -> Result<Bytes, AllocError> {
    let mut bytes = Bytes::new(alloc);
    let mut is_first = true;
    'pieces: for piece in text.split("\\n") {
        if !is_first {
            bytes.append(b"\n")?;
        }
        bytes.append(piece.as_bytes())?;
        is_first = false;
    }
    Ok(bytes)
}
