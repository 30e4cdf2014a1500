//! What is wrong with a case.

use std::alloc::{AllocError, AllocFailed};

/// What is wrong with a case.
#[derive(Drop)]
pub enum Wrong {
    /// A line isn't of its form.
    Form { number: usize, why: &'static str },
    /// What a line says isn't so: lines that say how, as a diff shows it.
    Differs { number: usize, shown: Vec<String> },
    /// Memory was refused.
    Memory,
}

impl From<AllocError> for Wrong {
    fn from(_: AllocError) -> Self {
        Wrong::Memory
    }
}

impl<T: Drop> From<AllocFailed<T>> for Wrong {
    fn from(_: AllocFailed<T>) -> Self {
        Wrong::Memory
    }
}
