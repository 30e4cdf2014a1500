//! How often calls have failed.

ghost use Rattle.std.specs.Prelude.{◌≡◌, Ok, IfOk};
ghost use Rattle.object_name.specs.Causes.{HasCause};

use object_name::Trouble;
use std::io;
use std::io::ErrorKind;
use std::marker::Model;

/// How often calls have failed. The count stands still at its last value. Contracts see it as a number.
#[derive(Debug, Drop)]
pub struct FaultCount {
    count: u64,
}

impl Model for FaultCount {
    ghost use Rattle.std.specs.Prelude.{ℕ};
    ghost use Rattle.std.specs.Coded.{coded_ℕ};

    ghost Value = { ℕ };

    ghost coded = { coded_ℕ };

    ghost view = { λ f. f.count };
}

impl FaultCount {
    /// No call has failed.
    pub fn new() -> Self
        ensures { result ≡ 0 }
    {
        FaultCount { count: 0 }
    }

    pub fn count(&self) -> u64
        ensures { result ≡ self.now }
    {
        self.count
    }

    /// What a call answers, by what came of its work on files: a failure is counted, and out of memory isn't one.
    pub fn answer<T: Drop>(&mut self, done: io::Result<T>) -> Result<T, Trouble>
        ensures done { IfOk done (λ value. result ≡ Ok value) }
        ensures value { IfOk result (λ value. done ≡ Ok value) }
        ensures cause { HasCause self.old self.new result }
    {
        match done {
            Ok(value) => Ok(value),
            Err(error) if error.kind() == ErrorKind::OutOfMemory => Err(Trouble::Memory),
            Err(_) => {
                self.count = self.count.saturating_add(1);
                Err(Trouble::Failed)
            }
        }
    }
}
