//! The law that a build that is inferred and then forced is the build at once.
#![tactic(auto)]

pub mod laws;
