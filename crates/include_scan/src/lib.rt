//! The headers that a C source may include.
#![tactic(auto)]

mod fault;
mod found;
pub mod laws;
mod queue;
mod scanning;
mod visits;

pub use fault::ScanFault;
pub use scanning::scan;
