//! Links that fail by a list of actions.

ghost use Rattle.std.specs.Prelude.{◌≡◌, [], IfOk};
ghost use Rattle.worker_link.specs.declared.phase.Phase.TheVariants.{Idle};

use crate::frames::{is_x, job};
use object_name::{Many, Trouble};
use sandbox_run::Cards;
use std::alloc::Global;
use std::test::Fail;
use worker_link::{Action, Link, ScriptLink};

/// An open link that takes one action and answers from then on.
fn link_with(alloc: Global, action: Action) -> Result<ScriptLink<Cards>, Fail>
    ensures idle { IfOk result (λ link. ⟦<ScriptLink<Cards> as Link>⟧.phase link ≡ Idle) }
    ensures jobs { IfOk result (λ link. ⟦<ScriptLink<Cards> as Link>⟧.jobs link ≡ []) }
{
    let mut actions = Many::new(alloc);
    actions.push(action)?;
    let mut link = ScriptLink::new(alloc, Cards, actions);
    link.reopen(alloc)?;
    Ok(link)
}

#[test]
fn a_delayed_reply_comes_next(rt: HostRuntime) -> Result<(), Fail> {
    let alloc = rt.alloc();
    let job = job(alloc)?;
    let mut link = link_with(alloc, Action::Delay)?;
    link.send(alloc, 0, &job)?;
    assert!(rt; matches!(link.receive(alloc), Err(Trouble::Failed)));
    assert_eq!(rt; link.losses(), 1);
    link.reopen(alloc)?;
    link.send(alloc, 1, &job)?;
    let (lease, outcome) = link.receive(alloc)?;
    assert_eq!(rt; lease, 0);
    assert!(rt; is_x(&outcome));
    let (lease, outcome) = link.receive(alloc)?;
    assert_eq!(rt; lease, 1);
    assert!(rt; is_x(&outcome));
    Ok(())
}

#[test]
fn a_lost_reply_does_not_come(rt: HostRuntime) -> Result<(), Fail> {
    let alloc = rt.alloc();
    let job = job(alloc)?;
    let mut link = link_with(alloc, Action::Lose)?;
    link.send(alloc, 0, &job)?;
    assert!(rt; matches!(link.receive(alloc), Err(Trouble::Failed)));
    assert_eq!(rt; link.losses(), 1);
    link.reopen(alloc)?;
    link.send(alloc, 1, &job)?;
    let (lease, outcome) = link.receive(alloc)?;
    assert_eq!(rt; lease, 1);
    assert!(rt; is_x(&outcome));
    Ok(())
}

#[test]
fn a_repeated_reply_comes_again(rt: HostRuntime) -> Result<(), Fail> {
    let alloc = rt.alloc();
    let job = job(alloc)?;
    let mut link = link_with(alloc, Action::Repeat)?;
    link.send(alloc, 0, &job)?;
    let (lease, _) = link.receive(alloc)?;
    assert_eq!(rt; lease, 0);
    link.send(alloc, 1, &job)?;
    let (lease, outcome) = link.receive(alloc)?;
    assert_eq!(rt; lease, 0);
    assert!(rt; is_x(&outcome));
    let (lease, _) = link.receive(alloc)?;
    assert_eq!(rt; lease, 1);
    assert_eq!(rt; link.losses(), 0);
    Ok(())
}
