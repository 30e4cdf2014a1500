//! Texts as lines, and lines as words.
#![tactic(auto)]

mod blanks;
mod cuts;
pub mod laws;
mod line;

pub use blanks::{is_blank, next_word, skip_blanks, trim_blanks};
pub use cuts::{before_feed, split_at_byte, strip_prefix};
pub use line::next_line;
