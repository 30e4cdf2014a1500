//! Calls of an object in memory that fail by list.

ghost use Rattle.std.specs.Prelude.{◌≡◌, ◌↔◌, ◌==◌, ◌+◌, ◌<◌, ◌^◌, ℕ, List, IsTrue, IsErr, IfErr, Result};
ghost use Rattle.std.specs.List.{list_any};
ghost use Rattle.object_name.specs.Causes.{HasCause};
ghost use Rattle.object_name.specs.Calls.{CallList, fails_next, after_call};

use crate::many::Many;
use crate::trouble::Trouble;
use std::marker::Model;

/// The calls of an object in memory, numbered from 1 over all its methods. Those whose numbers are listed fail.
#[derive(Debug, Drop)]
pub struct Calls {
    failing: Vec<u64>,
    count: u64,
    faults: u64,
}

impl Model for Calls {
    ghost use Rattle.object_name.specs.Calls.{CallList};

    ghost Value = { CallList };

    ghost view = { λ c. record { failing = c.failing.items; count = c.count; faults = c.faults } };
}

impl Calls {
    /// No call yet.
    pub fn new(failing: Many<u64>) -> Self
        ensures { result ≡ record { failing = failing; count = 0; faults = 0 } }
    {
        let Many(failing) = failing;
        Calls {
            failing,
            count: 0,
            faults: 0,
        }
    }

    /// Begins the next call, which fails where its number is listed.
    pub fn begin(&mut self) -> Result<(), Trouble>
        ensures next { self.new ≡ after_call self.old }
        ensures fails { IsErr result ↔ IsTrue (fails_next self.old) }
        ensures failed { IfErr result (λ e. e ≡ Trouble.Failed) }
        ensures cause { HasCause self.old.faults self.new.faults result }
    {
        let fails = is_listed(self.failing.as_slice(), self.count);
        self.count = self.count.saturating_add(1);
        if fails {
            self.faults = self.faults.saturating_add(1);
            return Err(Trouble::Failed);
        }
        Ok(())
    }

    /// How many calls were begun.
    pub fn count(&self) -> u64
        ensures { result ≡ self.now.count }
    {
        self.count
    }

    /// How many of them failed.
    pub fn faults(&self) -> u64
        ensures { result ≡ self.now.faults }
    {
        self.faults
    }
}

/// Whether the number after a count is listed. None comes after the last number.
fn is_listed(failing: &[u64], count: u64) -> bool
    ensures { result ≡ list_any (λ number. number == count + 1) failing.now }
{
    match count.checked_add(1) {
        Some(next) => failing.contains(&next),
        None => false,
    }
}
