//! The model of gcc: what a command line of gcc asks for, and the thunks of its stages.
#![tactic(auto)]

mod applying;
mod building;
mod checks;
mod gcc_plan;
pub mod laws;
mod libraries;
mod linking;
mod operand_steps;
mod outputs;
mod planning;
mod slots;
mod stages;
mod stopping;
mod values;
mod word_class;

pub use applying::apply;
pub use building::build_of;
pub use gcc_plan::{GccPlan, Operand, Stop};
pub use planning::plan;
