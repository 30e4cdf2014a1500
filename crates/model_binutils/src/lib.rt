//! The model of `ar`, `ranlib`, `strip`, `cp`, `mv` and `rm`: what a command line of theirs asks for,
//! and what that does where tools aren't run.
#![tactic(auto)]

mod applying;
mod ar_words;
mod bin_plan;
mod building;
mod command;
mod insertion;
pub mod laws;
mod limits;
mod one_input;
mod operand;
mod planning;
mod strip_words;
mod stripping;
mod tree_words;
mod words;

pub use applying::apply;
pub use bin_plan::BinPlan;
pub use building::build_of;
pub use planning::plan;
