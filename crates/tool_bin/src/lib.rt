//! The cards that compile, assemble, link and keep archives: each a function of its job.
#![tactic(auto)]

mod ar_tool;
mod archive;
pub mod archive_laws;
mod archive_reading;
mod archive_task;
mod archive_writing;
mod as_tool;
mod cc1_tool;
mod function_definition;
mod instruction;
pub mod laws;
mod ld_tool;
mod link_fault;
mod member_insertion;
mod names;
mod object;
mod object_builder;
mod object_reading;
mod object_rules;
mod one_output;
mod program;
mod statement;
mod status;
mod strip_tool;
mod symbol_table;

pub use ar_tool::{ar, ranlib};
pub use archive::{Archive, Member, read_archive};
pub use archive_reading::is_member_name;
pub use as_tool::as_;
pub use cc1_tool::cc1;
pub use instruction::Instruction;
pub use ld_tool::ld;
pub use object::{DebugLine, EXECUTABLE_HEAD, OBJECT_HEAD, Object, Symbol, write_object};
pub use object_reading::{read_object, symbol_names};
pub use strip_tool::strip;
