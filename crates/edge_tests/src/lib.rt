//! Tests of what reaches outside: keepers and trees over real folders, of which some calls fail, and streams that fail midway, by
//! public calls alone.
#![tactic(auto)]

#[cfg(test)]
mod failing_streams;
#[cfg(test)]
mod folders;
#[cfg(test)]
mod keepers;
#[cfg(test)]
mod stopping;
#[cfg(test)]
mod trees;
