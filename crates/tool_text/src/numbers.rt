//! Numbers in files.

ghost use Rattle.std.specs.Prelude.{◌≡◌, IfOk};
ghost use Rattle.tool_text.specs.Numbers.{number_in, number_line};

use object_name::{Bytes, read_number, write_number};
use std::alloc::{AllocError, Global};
use text_lines::before_feed;

/// The number that a file holds, followed by a line feed.
pub(crate) fn number_in(bytes: &[u8]) -> Option<u64>
    ensures { result ≡ number_in bytes.now }
{
    read_number(before_feed(bytes)?)
}

/// A number and a line feed.
pub(crate) fn number_line(alloc: Global, number: u64) -> Result<Bytes, AllocError>
    ensures { IfOk result (λ bytes. bytes ≡ number_line number) }
{
    let mut bytes = Bytes::new(alloc);
    write_number(number, &mut bytes)?;
    bytes.append(b"\n")?;
    Ok(bytes)
}
