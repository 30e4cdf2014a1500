//! Leases of jobs: which job is run next, and how often it is run at a time.
#![tactic(auto)]

mod leases;
mod pending;
mod row;

pub use leases::Leases;
pub use row::{Lease, Row};
