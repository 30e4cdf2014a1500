//! Tests of links to workers and of a worker's sessions, by public calls alone.
#![tactic(auto)]

#[cfg(test)]
mod connected;
#[cfg(test)]
mod frames;
#[cfg(test)]
mod inside;
#[cfg(test)]
mod scripted;
#[cfg(test)]
mod served;
#[cfg(test)]
mod streamed;
#[cfg(test)]
mod trickle;
