//! Lists of actions that are taken one after another.

ghost use Rattle.std.specs.Prelude.{◌≡◌, ◌≤◌, [], length, slice_get};
ghost use Rattle.worker_link.specs.Script.{first_action, after_action, loss, losses};

use crate::action::Action;
use object_name::Many;
use std::marker::Model;

/// The actions of a link, of which the first ones were taken.
#[derive(Debug, Drop)]
pub(crate) struct Script {
    actions: Many<Action>,
    taken: usize,
}

impl Model for Script {
    ghost use Rattle.std.specs.Prelude.{◌≤◌, length, take, drop};
    ghost use Rattle.worker_link.specs.Script.{Script};

    ghost Value = { Script };

    ghost view = { λ s. record { taken = take s.taken s.actions; left = drop s.taken s.actions } };

    ghost invariant = { λ s. s.taken ≤ length s.actions };
}

impl Script {
    /// None was taken.
    pub(crate) fn new(actions: Many<Action>) -> Self
        ensures { result ≡ record { taken = []; left = actions } }
    {
        Script { actions, taken: 0 }
    }

    /// Takes the next action. Behind the list it is to answer.
    pub(crate) fn next(&mut self) -> Action
        ensures action { result ≡ first_action self.old.left }
        ensures after { self.new ≡ after_action self.old.taken self.old.left }
    {
        let Some(action) = action_at(self.actions.as_slice(), self.taken) else {
            return Action::Answer;
        };
        self.taken += 1;
        action
    }

    /// How many calls the actions taken have failed.
    pub(crate) fn losses(&self) -> usize
        ensures { result ≡ losses self.now.taken }
    {
        losses(&self.actions.as_slice()[..self.taken])
    }
}

/// The action at a place.
fn action_at(actions: &[Action], place: usize) -> Option<Action>
    ensures { result ≡ slice_get actions.now place }
{
    actions.get(place).copied()
}

/// How many calls some actions fail.
fn losses(actions: &[Action]) -> usize
    ensures count { result ≡ losses actions.now }
    ensures most { result ≤ length actions.now }
{
    let mut count = 0;
    let mut rest = actions;
    'actions: while let [first, others @ ..] = rest {
        count += loss(*first);
        rest = others;
    }
    count
}

/// How many calls an action fails.
fn loss(action: Action) -> usize
    ensures count { result ≡ loss action }
    ensures most { result ≤ 1 }
{
    match action {
        Action::Answer | Action::Repeat => 0,
        Action::Lose | Action::Delay => 1,
    }
}
