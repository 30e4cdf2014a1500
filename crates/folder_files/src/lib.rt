//! Whole files: read up to a limit, replaced, removed; and the count of the calls that failed.
//!
//! This crate is the edge to the file system, and what the system does is trusted: no clause says which bytes a file has, or
//! that a file replaced has the new ones. What is proved is that these functions are safe and return, how long the bytes are
//! that are read, under which names files are written, and when a fault is counted.
#![tactic(auto)]

mod fault_count;
mod file_writer;
mod whole_file;

pub use fault_count::FaultCount;
pub use file_writer::FileWriter;
pub use whole_file::{is_absent, path_in, read_file, remove_file};
