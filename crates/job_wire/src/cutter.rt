//! Cutting a session into frames.

ghost use Rattle.std.specs.Prelude.{◌≡◌, ◌<◌, ◌+◌, ◌^◌, ◌++◌, ◌↔◌, [], length, IsTrue, OnOk, OnErr};
ghost use Rattle.job_wire.specs.Cut.{Cuts, TakesFrame};

use crate::front::{Found, front_of};
use crate::message::Message;
use std::alloc::{AllocError, Global};
use std::marker::Model;

/// Cuts a session into frames, in whatever pieces its bytes come. Contracts see how many bytes were cut away, and those kept.
#[derive(Debug, Drop)]
pub struct Cutter {
    bytes: Vec<u8>,
    /// How many of these bytes are cut away.
    start: usize,
    /// How many bytes of the session are cut away.
    at: u64,
}

impl Model for Cutter {
    ghost use Rattle.std.specs.Prelude.{◌≤◌, ◌<◌, ◌+◌, ◌-◌, ◌^◌, length, drop};
    ghost use Rattle.job_wire.specs.Cut.{Cutting};

    ghost Value = { Cutting };

    ghost view = { λ c. record { at = c.at; kept = drop c.start c.bytes.items } };

    ghost invariant = { λ c. (c.start ≤ length c.bytes.items) × (c.at + (length c.bytes.items - c.start) < 2 ^ 64) };
}

/// Why the next frame isn't given.
#[derive(Clone, Copy, Debug, PartialEq, Eq)]
pub enum CutFault {
    /// The next four bytes give a length over the limit.
    FrameTooLong {
        /// The place of the first of them in the session.
        at: u64,
        /// The length.
        len: u32,
    },
    /// The next frame is whole, but of no message.
    BadFrame {
        /// The place of its first byte in the session.
        at: u64,
    },
    /// Memory was refused.
    Memory,
}

impl Cutter {
    /// A session of which nothing came yet.
    pub fn new(alloc: Global) -> Self
        ensures { result ≡ record { at = 0; kept = [] } }
    {
        Cutter {
            bytes: Vec::new(alloc),
            start: 0,
            at: 0,
        }
    }

    /// Adds the bytes that come next.
    pub fn feed(&mut self, piece: &[u8]) -> Result<(), AllocError>
        requires { self.old.at + length self.old.kept + length piece.now < 2 ^ 64 }
        ensures fed { OnOk result (self.new ≡ record { at = self.old.at; kept = self.old.kept ++ piece.now }) }
        ensures kept { OnErr result (self.new ≡ self.old) }
    {
        self.let_go();
        self.bytes.extend_from_slice(piece)
    }

    /// Lets the bytes go that are cut away.
    fn let_go(&mut self)
        ensures { self.new ≡ self.old }
    {
        if self.start == 0 {
            return;
        }
        let left = self.bytes.len() - self.start;
        self.bytes.rotate_left(self.start);
        self.bytes.truncate(left);
        self.start = 0;
    }

    /// Cuts the next frame away, where it is whole, and gives its message. After a fault nothing is cut away, and but for want
    /// of memory the same fault comes again, whatever is fed.
    pub fn next(&mut self, alloc: Global) -> Result<Option<Message>, CutFault>
        ensures cuts { Cuts self.old self.new result }
        ensures taken { TakesFrame self.old self.new result }
    {
        match front_of(alloc, &self.bytes[self.start..]) {
            Found::Short => Ok(None),
            Found::TooLong(len) => Err(CutFault::FrameTooLong { at: self.at, len }),
            Found::Bad => Err(CutFault::BadFrame { at: self.at }),
            Found::Memory => Err(CutFault::Memory),
            Found::Whole(message, size) => {
                self.start += size;
                self.at += size as u64;
                Ok(Some(message))
            }
        }
    }

    /// The place of the next frame's first byte in the session.
    pub fn at(&self) -> u64
        ensures { result ≡ self.now.at }
    {
        self.at
    }

    /// How many bytes were fed.
    pub fn fed(&self) -> u64
        ensures { result ≡ self.now.at + length self.now.kept }
    {
        self.at + (self.bytes.len() - self.start) as u64
    }

    /// Whether no byte of a next frame is there.
    pub fn at_rest(&self) -> bool
        ensures { IsTrue result ↔ (self.now.kept ≡ []) }
    {
        self.bytes[self.start..].is_empty()
    }
}
