//! The limits of a forcing.

ghost use Rattle.std.specs.Prelude.{◌≤◌};

use anyhow::{Result, bail};
use force_pool::Setup;

/// The limits of a forcing.
#[derive(Clone, Copy)]
pub struct Limits {
    budget: u32,
    retries: u32,
    copies: u32,
    ghost retries_fit: { retries ≤ 16 },
    ghost copies_fit: { (1 ≤ copies) × (copies ≤ 4) },
}

impl Limits {
    /// The limits where a case says none.
    pub fn usual() -> Limits {
        Limits {
            budget: 1_000_000,
            retries: 2,
            copies: 1,
        }
    }

    pub fn set_budget(&mut self, budget: u32) {
        self.budget = budget;
    }

    pub fn set_retries(&mut self, retries: u32) -> Result<()> {
        if retries > 16 {
            bail!("at most 16 retries");
        }
        self.retries = retries;
        Ok(())
    }

    pub fn set_copies(&mut self, copies: u32) -> Result<()> {
        if copies < 1 {
            bail!("at least 1 copy");
        }
        if copies > 4 {
            bail!("at most 4 copies");
        }
        self.copies = copies;
        Ok(())
    }

    pub fn budget(&self) -> u32 {
        self.budget
    }

    pub fn retries(&self) -> u32 {
        self.retries
    }

    /// The limits as a call takes them.
    pub fn setup(&self) -> Setup
        ensures retries { result.retries ≤ 16 }
        ensures copies { (1 ≤ result.copies) × (result.copies ≤ 4) }
    {
        Setup {
            budget: self.budget,
            retries: self.retries,
            copies: self.copies,
        }
    }
}
