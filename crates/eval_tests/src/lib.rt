//! Tests of evaluation: a walker beside a plain program that calls itself.
#![tactic(auto)]

#[cfg(test)]
mod compared;
#[cfg(test)]
mod content;
#[cfg(test)]
mod joining;
#[cfg(test)]
mod plain;
#[cfg(test)]
mod preparing;
#[cfg(test)]
mod scenes;
#[cfg(test)]
mod texts;
#[cfg(test)]
mod told;
