//! Runs jobs: a job whose function is a card is the work of that card's tool.
#![tactic(auto)]

mod cards;
mod tools;

pub use cards::Cards;
