//! Plans of commands, as plain data, and what they do where tools aren't run: thunks are stored and placeholders are left.
#![tactic(auto)]

mod applying;
mod creating;
mod faults;
mod gathered;
mod inputs;
mod job_paths;
mod plan;
mod reading;
mod recipe;
mod stages;
mod steps;
mod stored;
mod targets;

pub use applying::apply_plan;
pub use creating::create;
pub use gathered::Gathered;
pub use job_paths::{four_digits, known_path};
pub use plan::{Plan, Scanning, Source, Stage, Step, Target};
pub use recipe::{Recipe, RecipeFunction};
