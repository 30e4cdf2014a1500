//! A sink in memory.

ghost use Rattle.std.specs.Prelude.{◌≡◌, ◌≤◌, ◌<◌, ◌↔◌, [], length, take, Some, IsTrue, IfOk, OnOk, OnErr, IsErrOf, Result};
ghost use Rattle.std.specs.Io.KnownBytes.{Appends, Keeps};
ghost use Rattle.object_name.specs.Causes.{HasCause};
ghost use Rattle.object_name.specs.Calls.{MemBytes, fails_next, after_call};

use crate::bytes::Bytes;
use crate::calls::Calls;
use crate::many::Many;
use crate::sink::Sink;
use crate::trouble::Trouble;
use std::alloc::{AllocError, Global};
use std::marker::Model;

/// A sink in memory, of which the calls with listed numbers fail.
#[derive(Debug, Drop)]
pub struct MemSink {
    content: Vec<u8>,
    calls: Calls,
}

impl Model for MemSink {
    ghost use Rattle.object_name.specs.Calls.{MemBytes};

    ghost Value = { MemBytes };

    ghost view = { λ s. record { content = s.content.items; calls = s.calls } };
}

impl MemSink {
    /// A sink with nothing written. Its writes are numbered from 1.
    pub fn new(alloc: Global, failing: Many<u64>) -> Result<Self, AllocError>
        ensures { IfOk result (λ s. s ≡ record { content = []; calls = record { failing = failing; count = 0; faults = 0 } }) }
    {
        Ok(MemSink {
            content: Vec::new(alloc),
            calls: Calls::new(failing),
        })
    }

    /// The number of calls so far.
    pub fn calls(&self) -> u64
        ensures { result ≡ self.now.calls.count }
    {
        self.calls.count()
    }

    /// The bytes written.
    pub fn into_content(self) -> Bytes
        ensures { result ≡ self.content }
    {
        let MemSink { content, calls: _ } = self;
        Bytes(content)
    }
}

impl Sink for MemSink {
    ghost written = { λ s. Some s.content };

    ghost faults = { λ s. s.calls.faults };

    fn write(&mut self, bytes: &[u8]) -> Result<usize, Trouble>
        requires { 0 < length bytes.now }
        ensures count { IfOk result (λ n. (0 < n) × (n ≤ length bytes.now)) }
        ensures took { IfOk result (λ n. Appends (Some self.old.content) (Some self.new.content) (take n bytes.now)) }
        ensures kept { OnErr result (Keeps (Some self.old.content) (Some self.new.content)) }
        ensures cause { HasCause self.old.calls.faults self.new.calls.faults result }
        ensures calls { self.new.calls ≡ after_call self.old.calls }
        ensures fails { IsErrOf result Trouble.Failed ↔ IsTrue (fails_next self.old.calls) }
        ensures whole { IfOk result (λ n. n ≡ length bytes.now) }
    {
        self.calls.begin()?;
        self.content.extend_from_slice(bytes)?;
        Ok(bytes.len())
    }
}
