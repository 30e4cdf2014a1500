//! The cards that work on bytes and numbers: each a function of its job.
#![tactic(auto)]

mod add_tool;
mod candidate_paths;
mod cat_tool;
mod cpp_fault;
mod cpp_tool;
mod directive;
mod expansion;
mod fail_tool;
mod failure;
mod fib_thunks;
mod fib_tool;
mod groups;
mod include_lines;
pub mod laws;
mod line_effects;
mod macros;
mod numbers;
mod prefixes;
mod processing;
mod settings;
mod state;
mod status;

pub use add_tool::add;
pub use candidate_paths::candidates;
pub use cat_tool::cat;
pub use cpp_tool::cpp;
pub use directive::Target;
pub use fail_tool::fail;
pub use failure::Failure;
pub use fib_tool::fib;
pub use groups::Group;
pub use include_lines::{IncludeLine, include_line};
