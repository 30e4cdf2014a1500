//! A link that fails by a list of actions.

ghost use Rattle.std.specs.Prelude.{◌≡◌, ◌++◌, ◌∷◌, ◌+◌, [], IsOk, IfOk, IfErr, OnOk, OnErr, None};
ghost use Rattle.std.specs.Arc.{arc_value};
ghost use Rattle.object_name.specs.Causes.{HasCause};
ghost use Rattle.job_wire.specs.Frame.{IsJob};
ghost use Rattle.worker_link.specs.declared.phase.Phase.TheVariants.{Shut, Idle, Waiting};
ghost use Rattle.worker_link.specs.Link.{IsReply, IsReplyAt, after_reply};
ghost use Rattle.worker_link.specs.Script.{Receives, losses};

use crate::action::Action;
use crate::link::Link;
use crate::replies::Replies;
use crate::run_order::Scripted;
use crate::script::Script;
use crate::sent::Sent;
use object_name::{Many, Trouble};
use std::alloc::Global;
use std::sync::Arc;
use thunk_codec::{Function, Job, Outcome, Runner};

/// A link that runs each job itself and takes the next action of a list on its reply. Behind the list it answers.
#[derive(Drop)]
pub struct ScriptLink<R: Runner> {
    runner: R,
    replies: Replies<R>,
    script: Script,
}

impl<R: Runner> ScriptLink<R> {
    /// A link that is shut, over which nothing was sent.
    pub fn new(alloc: Global, runner: R, actions: Many<Action>) -> Self
        ensures jobs { ⟦<ScriptLink<R> as Link>⟧.jobs result ≡ [] }
        ensures phase { ⟦<ScriptLink<R> as Link>⟧.phase result ≡ Shut }
        ensures faults { ⟦<ScriptLink<R> as Link>⟧.faults result ≡ R.faults runner }
        ensures acting { ⟦<ScriptLink<R> as Scripted>⟧.acting result ≡ record { ran = 0; script = record { taken = []; left = actions }; held = None } }
    {
        ScriptLink {
            runner,
            replies: Replies::new(alloc),
            script: Script::new(actions),
        }
    }

    /// How many calls the actions taken have failed. The runner's own count isn't in it.
    pub fn losses(&self) -> usize
        ensures { result ≡ losses (⟦<ScriptLink<R> as Scripted>⟧.acting self.now).script.taken }
    {
        self.script.losses()
    }
}

/// Runs the next job. Where that fails, nothing more may be received.
fn run_next<R: Runner>(
    alloc: Global,
    runner: &mut R,
    replies: &mut Replies<R>,
) -> Result<(u64, Outcome), Trouble>
    requires { replies.old.queue.phase ≡ Waiting }
    ensures reply { IfOk result (λ r. IsReplyAt R.tells R.outcome replies.old.queue.sent replies.old.queue.ran r.0 r.1) }
    ensures ok { OnOk result (replies.new ≡ replies.old) }
    ensures err { OnErr result (replies.new.queue ≡ record { sent = replies.old.queue.sent; ran = replies.old.queue.ran + 1; phase = Shut }) }
    ensures held { replies.new.held ≡ replies.old.held }
    ensures cause { HasCause (R.faults runner.old) (R.faults runner.new) result }
{
    let next = replies.next();
    let lease = next.lease();
    match runner.run(alloc, next.job()) {
        Ok(outcome) => Ok((lease, outcome)),
        Err(trouble) => {
            replies.failed();
            Err(trouble)
        }
    }
}

impl<R: Runner> Function for ScriptLink<R> {
    ghost outcome = { R.outcome };

    ghost tells = { R.tells };

    ghost fits = { R.Function.fits };
}

impl<R: Runner> Scripted for ScriptLink<R> {
    ghost acting = { λ l. record { ran = l.replies.queue.ran; script = l.script; held = l.replies.held } };
}

impl<R: Runner> Link for ScriptLink<R> {
    ghost jobs = { λ l. l.replies.queue.sent };

    ghost phase = { λ l. l.replies.queue.phase };

    ghost faults = { λ l. R.faults l.runner + losses l.script.taken };

    fn reopen(&mut self, _alloc: Global) -> Result<(), Trouble>
        ensures ok { IsOk result }
        ensures idle { ⟦<ScriptLink<R> as Link>⟧.phase self.new ≡ Idle }
        ensures same { ⟦<ScriptLink<R> as Link>⟧.jobs self.new ≡ ⟦<ScriptLink<R> as Link>⟧.jobs self.old }
        ensures acting { ⟦<ScriptLink<R> as Scripted>⟧.acting self.new ≡ ⟦<ScriptLink<R> as Scripted>⟧.acting self.old }
        ensures cause { HasCause (⟦<ScriptLink<R> as Link>⟧.faults self.old) (⟦<ScriptLink<R> as Link>⟧.faults self.new) result }
    {
        self.replies.open();
        Ok(())
    }

    fn send(&mut self, _alloc: Global, lease: u64, job: &Arc<Job>) -> Result<(), Trouble>
        requires idle { ⟦<ScriptLink<R> as Link>⟧.phase self.old ≡ Idle }
        requires job { IsJob (arc_value job.now) }
        ensures sent { OnOk result (⟦<ScriptLink<R> as Link>⟧.jobs self.new ≡ ⟦<ScriptLink<R> as Link>⟧.jobs self.old ++ (lease, arc_value job.now) ∷ []) }
        ensures waiting { OnOk result (⟦<ScriptLink<R> as Link>⟧.phase self.new ≡ Waiting) }
        ensures kept { OnErr result (⟦<ScriptLink<R> as Link>⟧.jobs self.new ≡ ⟦<ScriptLink<R> as Link>⟧.jobs self.old) }
        ensures shut { OnErr result (⟦<ScriptLink<R> as Link>⟧.phase self.new ≡ Shut) }
        ensures acting { ⟦<ScriptLink<R> as Scripted>⟧.acting self.new ≡ ⟦<ScriptLink<R> as Scripted>⟧.acting self.old }
        ensures faults { ⟦<ScriptLink<R> as Link>⟧.faults self.new ≡ ⟦<ScriptLink<R> as Link>⟧.faults self.old }
        ensures memory { IfErr result (λ trouble. trouble ≡ Trouble.Memory) }
    {
        self.replies.push(lease, job)?;
        Ok(())
    }

    fn receive(&mut self, alloc: Global) -> Result<(u64, Outcome), Trouble>
        requires waiting { ⟦<ScriptLink<R> as Link>⟧.phase self.old ≡ Waiting }
        ensures reply { IfOk result (λ r. IsReply R.tells R.outcome (⟦<ScriptLink<R> as Link>⟧.jobs self.old) r.0 r.1) }
        ensures receives { Receives R.tells R.outcome (⟦<ScriptLink<R> as Link>⟧.jobs self.old) (⟦<ScriptLink<R> as Scripted>⟧.acting self.old) (⟦<ScriptLink<R> as Scripted>⟧.acting self.new) result (⟦<ScriptLink<R> as Scripted>⟧.acting self.old).held }
        ensures phase { IfOk result (λ r. ⟦<ScriptLink<R> as Link>⟧.phase self.new ≡ after_reply (⟦<ScriptLink<R> as Link>⟧.jobs self.old) r.0) }
        ensures shut { OnErr result (⟦<ScriptLink<R> as Link>⟧.phase self.new ≡ Shut) }
        ensures same { ⟦<ScriptLink<R> as Link>⟧.jobs self.new ≡ ⟦<ScriptLink<R> as Link>⟧.jobs self.old }
        ensures cause { HasCause (⟦<ScriptLink<R> as Link>⟧.faults self.old) (⟦<ScriptLink<R> as Link>⟧.faults self.new) result }
    {
        if let Some(reply) = self.replies.take() {
            return Ok(reply);
        }
        let reply = run_next(alloc, &mut self.runner, &mut self.replies)?;
        let action = self.script.next();
        self.replies.act(alloc, action, reply)
    }

    fn finish(&mut self, _alloc: Global) -> Result<(), Trouble>
        ensures ok { IsOk result }
        ensures shut { ⟦<ScriptLink<R> as Link>⟧.phase self.new ≡ Shut }
        ensures same { ⟦<ScriptLink<R> as Link>⟧.jobs self.new ≡ ⟦<ScriptLink<R> as Link>⟧.jobs self.old }
        ensures acting { ⟦<ScriptLink<R> as Scripted>⟧.acting self.new ≡ ⟦<ScriptLink<R> as Scripted>⟧.acting self.old }
        ensures cause { HasCause (⟦<ScriptLink<R> as Link>⟧.faults self.old) (⟦<ScriptLink<R> as Link>⟧.faults self.new) result }
    {
        self.replies.shut();
        Ok(())
    }

    fn sent(&self) -> &[Sent] {
        self.replies.sent()
    }
}
