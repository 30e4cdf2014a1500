//! Tests of build scripts, by public calls that no case can say: each once where memory is ample.
#![tactic(auto)]

#[cfg(test)]
mod scripts;
