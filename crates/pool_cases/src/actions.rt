//! Lists of what links do with replies.

use anyhow::{Result, bail};
use object_name::Many;
use std::alloc::{AllocError, AllocFailed, Global};
use worker_link::Action;

/// All actions.
pub const ACTIONS: [Action; 4] = [Action::Answer, Action::Lose, Action::Delay, Action::Repeat];

/// The word of an action.
fn word(action: Action) -> &'static str {
    match action {
        Action::Answer => "Answer",
        Action::Lose => "Lose",
        Action::Delay => "Delay",
        Action::Repeat => "Repeat",
    }
}

/// The action of a word.
fn read(word: &str) -> Result<Action> {
    match word {
        "Answer" => Ok(Action::Answer),
        "Lose" => Ok(Action::Lose),
        "Delay" => Ok(Action::Delay),
        "Repeat" => Ok(Action::Repeat),
        _ => bail!("{word} is no action"),
    }
}

/// The actions of some words.
pub fn read_all(alloc: Global, words: &str) -> Result<Many<Action>> {
    let mut actions = Many::new(alloc);
    'words: for word in words.split(' ') {
        actions.push(read(word)?)?;
    }
    Ok(actions)
}

/// A copy of some actions.
pub fn copied(alloc: Global, actions: &[Action]) -> Result<Many<Action>, AllocFailed<Action>> {
    let mut copies = Many::new(alloc);
    'actions: for action in actions {
        copies.push(*action)?;
    }
    Ok(copies)
}

/// The words of some actions.
pub fn spelled(alloc: Global, actions: &[Action]) -> Result<String, AllocError> {
    let mut text = String::new(alloc);
    'actions: for action in actions {
        if !text.is_empty() {
            text.push(' ')?;
        }
        text.push_str(word(*action))?;
    }
    Ok(text)
}

/// How many calls some actions fail.
pub fn failures(actions: &[Action]) -> usize {
    actions
        .iter()
        .filter(|action| matches!(action, Action::Lose | Action::Delay))
        .count()
}
