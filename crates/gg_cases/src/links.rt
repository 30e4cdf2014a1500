//! The links of a command.

use crate::wrong::Wrong;
use object_name::Many;
use sandbox_run::Cards;
use std::alloc::{AllocError, Global};
use worker_link::{Action, InsideLink, ScriptLink};

/// What links do with their replies: a list of actions for each link.
#[derive(Drop)]
pub struct LinkScripts {
    scripts: Vec<Vec<Action>>,
}

/// The action of a word.
fn action_of(word: &str) -> Option<Action> {
    match word {
        "Answer" => Some(Action::Answer),
        "Lose" => Some(Action::Lose),
        "Delay" => Some(Action::Delay),
        "Repeat" => Some(Action::Repeat),
        _ => None,
    }
}

impl LinkScripts {
    /// No links.
    pub fn none(alloc: Global) -> Self {
        LinkScripts {
            scripts: Vec::new(alloc),
        }
    }

    pub fn is_empty(&self) -> bool {
        self.scripts.is_empty()
    }

    /// Adds a link by the words of its actions.
    pub fn add(&mut self, alloc: Global, number: usize, text: &str) -> Result<(), Wrong> {
        let mut script = Vec::new(alloc);
        for word in text.split(' ') {
            script.push(action_of(word).ok_or(Wrong::Form {
                number,
                why: "neither Answer, Lose, Delay nor Repeat",
            })?)?;
        }
        self.scripts.push(script)?;
        Ok(())
    }

    /// Links that do so.
    pub fn links(&self, alloc: Global) -> Result<Many<ScriptLink<Cards>>, AllocError> {
        let mut links = Many::new(alloc);
        for script in self.scripts.as_slice() {
            let mut actions = Many::new(alloc);
            for action in script.as_slice() {
                actions.push(*action)?;
            }
            links.push(ScriptLink::new(alloc, Cards, actions))?;
        }
        Ok(links)
    }
}

/// So many links that answer each job at once.
pub fn inside_links(alloc: Global, count: u32) -> Result<Many<InsideLink<Cards>>, AllocError> {
    let mut links = Many::new(alloc);
    for _ in 0..count {
        links.push(InsideLink::new(alloc, Cards))?;
    }
    Ok(links)
}
