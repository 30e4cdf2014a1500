//! A source in memory.

ghost use Rattle.std.specs.Prelude.{◌≡◌, ◌≤◌, ◌<◌, ◌↔◌, length, min, take, Some, Ok, IsTrue, IfOk, OnErr, IsErr, IfErr, Result};
ghost use Rattle.std.specs.Io.KnownBytes.{Consumes, Keeps, IsAtEnd};
ghost use Rattle.object_name.specs.Causes.{HasCause};
ghost use Rattle.object_name.specs.Calls.{MemBytes, fails_next, after_call, risen};

use crate::bytes::Bytes;
use crate::calls::Calls;
use crate::many::Many;
use crate::source::Source;
use crate::trouble::Trouble;
use std::alloc::AllocError;
use std::marker::Model;

/// A source in memory, of which the calls with listed numbers fail.
#[derive(Debug, Drop)]
pub struct MemSource {
    content: Vec<u8>,
    at: usize,
    calls: Calls,
}

impl Model for MemSource {
    ghost use Rattle.std.specs.Prelude.{◌≤◌, drop, length};
    ghost use Rattle.object_name.specs.Calls.{MemBytes};

    ghost Value = { MemBytes };

    ghost view = { λ s. record { content = drop s.at s.content.items; calls = s.calls } };

    ghost invariant = { λ s. s.at ≤ length s.content.items };
}

impl MemSource {
    /// A source of these bytes. Its reads are numbered from 1.
    pub fn new(bytes: Bytes, failing: Many<u64>) -> Result<Self, AllocError>
        ensures { IfOk result (λ s. s ≡ record { content = bytes; calls = record { failing = failing; count = 0; faults = 0 } }) }
    {
        let Bytes(content) = bytes;
        Ok(MemSource {
            content,
            at: 0,
            calls: Calls::new(failing),
        })
    }

    /// The number of calls so far.
    pub fn calls(&self) -> u64
        ensures { result ≡ self.now.calls.count }
    {
        self.calls.count()
    }

    /// The bytes left.
    pub fn into_content(self) -> Bytes
        ensures { result ≡ self.content }
    {
        let MemSource {
            mut content,
            at,
            calls: _,
        } = self;
        let left = content.len() - at;
        content.rotate_left(at);
        content.truncate(left);
        Bytes(content)
    }
}

/// Copies a prefix of some bytes, as many as there is room for, and says how many.
fn fill(buf: &mut [u8], bytes: &[u8]) -> usize
    ensures count { result ≡ min (length buf.old) (length bytes.now) }
    ensures given { take result buf.new ≡ take result bytes.now }
{
    let count = buf.len().min(bytes.len());
    buf[..count].copy_from_slice(&bytes[..count]);
    count
}

impl Source for MemSource {
    ghost left = { λ s. Some s.content };

    ghost faults = { λ s. s.calls.faults };

    ghost reads = { λ s. s.calls.count };

    fn read(&mut self, buf: &mut [u8]) -> Result<usize, Trouble>
        requires { 0 < length buf.old }
        ensures count { IfOk result (λ n. n ≤ length buf.new) }
        ensures gave { IfOk result (λ n. Consumes (Some self.old.content) (Some self.new.content) (take n buf.new)) }
        ensures end { result ≡ Ok 0 → IsAtEnd (Some self.new.content) }
        ensures kept { OnErr result (Keeps (Some self.old.content) (Some self.new.content)) }
        ensures cause { HasCause self.old.calls.faults self.new.calls.faults result }
        ensures one { self.new.calls.count ≡ risen self.old.calls.count }
        ensures calls { self.new.calls ≡ after_call self.old.calls }
        ensures fails { IsErr result ↔ IsTrue (fails_next self.old.calls) }
        ensures failed { IfErr result (λ e. e ≡ Trouble.Failed) }
        ensures all { IfOk result (λ n. n ≡ min (length buf.old) (length self.old.content)) }
    {
        self.calls.begin()?;
        let count = fill(buf, &self.content[self.at..]);
        self.at += count;
        Ok(count)
    }
}
