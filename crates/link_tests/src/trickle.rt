//! A reader that gives one byte at a time.

use object_name::Bytes;
use std::io;

/// Gives its bytes one at a time.
#[derive(Drop)]
pub struct Trickle {
    bytes: Bytes,
    at: usize,
}

impl Trickle {
    pub fn new(bytes: Bytes) -> Self {
        Trickle { bytes, at: 0 }
    }
}

impl io::Read for Trickle {
    fn read(&mut self, buf: &mut [u8]) -> io::Result<usize> {
        let Some(byte) = self.bytes.as_slice().get(self.at) else {
            return Ok(0);
        };
        let Some(first) = buf.first_mut() else {
            return Ok(0);
        };
        *first = *byte;
        self.at += 1;
        Ok(1)
    }
}
