//! Tests of names, paths, orders, thunks, placeholders and frames, by public calls that no program makes.
#![tactic(auto)]

#[cfg(test)]
mod frames;
#[cfg(test)]
mod names;
#[cfg(test)]
mod orders;
#[cfg(test)]
mod thunks;
