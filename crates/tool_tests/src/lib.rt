//! Tests of the crates under the tools and of the tools, by public calls that no case can say.
#![tactic(auto)]

#[cfg(test)]
mod bin_words;
#[cfg(test)]
mod scans;
#[cfg(test)]
mod script_words;
#[cfg(test)]
mod words;
