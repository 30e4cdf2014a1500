//! Paths, references, thunks and jobs, and their texts.
#![tactic(auto)]

mod canonical;
mod decoding;
mod encoding;
mod folder;
mod function;
mod inputs;
mod job;
mod job_length;
mod job_size;
pub mod laws;
mod lines;
mod making;
mod normal;
mod part_rules;
mod parts;
mod path;
mod placeholder;
mod reading;
mod reference;
mod resolving;
mod rules;
mod sorting;
mod thunk;
mod tool_card;

pub use decoding::{DecodeFault, decode};
pub use encoding::encode;
pub use folder::Folder;
pub use function::{Function, Runner};
pub use inputs::InputsByPath;
pub use job::{Job, Outcome, only_input};
pub use job_length::job_len;
pub use making::MakeFault;
pub use part_rules::{keep_rules, look_at_paths};
pub use path::Path;
pub use placeholder::{read_placeholder, write_placeholder};
pub use reference::Ref;
pub use resolving::resolve;
pub use rules::{
    is_among, is_identifier, is_letter, is_letter_or_digit, keep_bytes, keep_numbers, keep_orders,
};
pub use sorting::{sort_envs, sort_paths};
pub use thunk::Thunk;
pub use tool_card::card;
