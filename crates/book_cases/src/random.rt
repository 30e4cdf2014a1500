//! Calls that are made up.

ghost use Rattle.std.specs.Prelude.{◌≤◌, ◌<◌};

use crate::call::Call;
use force_core::Need;

/// The words of the jobs: few, so that they are often known.
const WORDS: [&str; 8] = ["a", "b", "c", "d", "e", "f", "g", "h"];

/// A generator of numbers: a linear congruence modulo 2^64, of which the upper bits are taken.
#[derive(Drop)]
pub struct Random {
    state: u64,
}

impl Random {
    pub fn new(seed: u64) -> Random {
        Random { state: seed }
    }

    fn next(&mut self) -> u32 {
        self.state = self
            .state
            .wrapping_mul(6_364_136_223_846_793_005)
            .wrapping_add(1_442_695_040_888_963_407);
        (self.state >> 33) as u32
    }

    /// A number below a bound.
    pub fn below(&mut self, bound: u32) -> u32
        requires { 1 ≤ bound }
        ensures { result < bound }
    {
        self.next() % bound
    }

    /// One of the words.
    pub fn word(&mut self) -> &'static str {
        WORDS[self.below(8) as usize]
    }

    /// A number of a job or of a lease, mostly of one that was given out by so many calls.
    pub fn number(&mut self, calls: u32) -> u64 {
        self.below((calls / 4).saturating_add(2)) as u64
    }

    fn need(&mut self) -> Need {
        if self.below(2) == 0 {
            Need::Now
        } else {
            Need::Ahead
        }
    }

    /// A call, where so many were made before.
    pub fn call(&mut self, calls: u32) -> Call<'static> {
        match self.below(64) {
            0..=19 => Call::Offer {
                word: self.word(),
                need: self.need(),
            },
            20..=39 => Call::Start {
                worker: self.below(4),
            },
            40..=49 => Call::Reply {
                lease: self.number(calls),
                status: 1 + self.below(2) as u8,
            },
            50..=54 => Call::Lose {
                lease: self.number(calls),
            },
            55..=60 => Call::Take {
                id: self.number(calls),
            },
            61 => Call::Answer {
                id: self.number(calls),
            },
            62 => Call::Find { word: self.word() },
            _ => Call::Agains,
        }
    }
}
