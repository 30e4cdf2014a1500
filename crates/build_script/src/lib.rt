//! Build scripts: their lines, the words of each line, and what the commands do, inferred or built at once.
#![tactic(auto)]

mod building;
mod commands;
mod file_bytes;
mod inferring;
mod line_command;
mod line_fault;
mod line_words;
mod lines;
mod moves;
mod pieces;
mod plan_at_once;
mod run_fault;
mod steps_at_once;
mod tool_inputs;
mod tool_runs;

pub use building::build_at_once;
pub use commands::{own_word, plan_command, word_at};
pub use inferring::{Inferred, infer};
pub use line_command::LineCommand;
pub use line_fault::LineFault;
pub use line_words::words_of;
pub use lines::{ScriptLine, script_lines};
pub use pieces::piece_of;
