//! Evaluation that can be left and resumed.

ghost use Rattle.std.specs.Prelude.{IsTrue, ◌≤◌};
ghost use Rattle.need_eval.specs.WalkerInvariant.{is_sound, is_ready};

use crate::evaluating::Values;
use crate::fault::EvalFault;
use crate::frame::{Frame, Level};
use crate::prepared::Prepared;
use crate::stage::{Halt, Stage};
use blob_store::Keeper;
use object_name::{Many, Name};
use std::alloc::{AllocError, Global};
use std::collections::{HashMap, VecDeque};
use std::mem::replace;
use thunk_codec::{Outcome, Ref};

/// An evaluation that stands somewhere inside. It owns neither the store nor what runs jobs: whoever has them calls `advance`
/// until it is `Blocked`, runs the job, and hands its outcome to `supply`. Between two calls the store stays as it is.
///
/// It stands inside the thunks of `frames`, the innermost first. A thunk is entered when one of its outputs is wanted: the values
/// of its references are gathered in `level`, and what was gathered round the thunk waits in its frame. When they are all there
/// its outputs are found, by a note or by the outcome of its job, and the walker goes on round it.
#[derive(Drop)]
pub struct Walker {
    /// The thunks that were entered, the innermost first.
    pub(crate) frames: VecDeque<Frame>,
    /// What is gathered now.
    pub(crate) level: Level,
    /// The outputs of the thunks that were reduced.
    pub(crate) reduced: HashMap<Name, Many<Name>>,
    pub(crate) steps: u32,
    pub(crate) budget: u32,
    pub(crate) retries: u32,
    pub(crate) stage: Stage,
    ghost sound: { IsTrue (is_sound frames.items level.done level.rest.items) },
    ghost within: { steps ≤ budget },
    ghost ready: { IsTrue (is_ready stage frames.items level.rest.items) },
}

/// How far an evaluation has come.
#[derive(Debug, Drop)]
pub enum Walked {
    /// The values are there.
    Ended(Values),
    /// It waits for the outcome of a job.
    Blocked,
}

impl Walker {
    ghost use Rattle.std.specs.Prelude.{◌≡◌, ◌≤◌, ◌<◌, true, length, IfOk, OnOk, OnErr, IfSome, IsSome, IsTrue};
    ghost use Rattle.std.specs.Option.{option_map};
    ghost use Rattle.std.specs.List.{AllByRecursion};
    ghost use Rattle.object_name.specs.Name.{max_size};
    ghost use Rattle.thunk_codec.specs.Job.{job_keeps_rules, job_size, max_job};
    ghost use Rattle.thunk_codec.specs.Reference.{IsRef};
    ghost use Rattle.thunk_codec.specs.Outcome.{Fits};
    ghost use Rattle.blob_store.specs.Keeping.{kept};
    ghost use Rattle.object_name.specs.Causes.{TriesAtMost};
    ghost use Rattle.need_eval.specs.declared.stage.Stage.TheVariants as stages;
    ghost use Rattle.need_eval.specs.StepContracts.{HasKeeperCause, OnlyReads, keeper_failures};
    ghost use Rattle.need_eval.specs.TurnContracts.{HaltsAs, IsHalted, IsInTurn};
    ghost use Rattle.need_eval.specs.Walking.{IsFresh, IsWalking, HasSetup, blocked_at, is_over, work_of, Advances, StandsAt, Supplies, StandsAs, HasSteps};

    /// An evaluation of some references that has not begun. The budget is the greatest number of steps; a failed call of a keeper
    /// is tried again, `retries` times at most.
    pub fn new(
        alloc: Global,
        refs: Many<Ref>,
        budget: u32,
        retries: u32,
    ) -> Result<Walker, AllocError>
        requires { AllByRecursion IsRef refs }
        ensures fresh { IfOk result (λ w. IsFresh refs budget w) }
        ensures retries { IfOk result (λ w. w.retries ≡ retries) }
        ensures walking { IfOk result IsWalking }
    {
        let level = Level {
            done: Many::new(alloc),
            rest: VecDeque::from_vec(refs.0),
        };
        Ok(Walker {
            frames: VecDeque::new(alloc),
            level,
            reduced: HashMap::new(alloc),
            steps: 0,
            budget,
            retries,
            stage: Stage::Walking,
        })
    }

    /// Goes on up to the end, or to a job whose outcome isn't there. Nothing is written. After a fault it is over.
    pub fn advance<K: Keeper>(&mut self, alloc: Global, keeper: &mut K) -> Result<Walked, EvalFault>
        requires { IsWalking self.old }
        // What is left of the evaluation is what was left; at a job the evaluation stands at the job of that text.
        ensures walks { K.tells → Advances self.old self.new (K.store keeper.old) result }
        // It writes nothing, meets no clash and runs no job.
        ensures only_reads { OnlyReads K.tells K.store K.writes K.faults K.calls keeper.old keeper.new self.old.retries result }
        // At a job it waits; else it is over.
        ensures stands { StandsAs self.new result }
        ensures steps { IfOk result (λ walked. HasSteps self.new walked) }
        ensures setup { HasSetup self.old self.new }
        ensures work { OnOk result (work_of self.new ≤ work_of self.old) }
    {
        self.stage = Stage::Turning;
        match self.turns(alloc, keeper) {
            Ok(Halt::AtEnd(values)) => {
                self.stage = Stage::Ended;
                Ok(Walked::Ended(values))
            }
            Ok(Halt::AtJob(waiting)) => {
                self.stage = Stage::Blocked(waiting);
                Ok(Walked::Blocked)
            }
            Err(fault) => {
                self.stage = Stage::Ended;
                Err(fault)
            }
        }
    }

    /// Takes turns up to where they end.
    fn turns<K: Keeper>(&mut self, alloc: Global, keeper: &mut K) -> Result<Halt, EvalFault>
        requires { self.old.stage ≡ stages.Turning }
        ensures walks { K.tells → HaltsAs self.old self.new (K.store keeper.old) result }
        ensures halts { IfOk result (λ halt. IsHalted self.new halt) }
        ensures only_reads { OnlyReads K.tells K.store K.writes K.faults K.calls keeper.old keeper.new self.old.retries result }
        ensures in_turn { IsInTurn self.old self.new }
        ensures work { OnOk result (work_of self.new ≤ work_of self.old) }
    {
        'turns: loop {
            if let Some(halt) = self.turn(alloc, keeper)? {
                return Ok(halt);
            }
        }
    }

    /// The job whose outcome is waited for, and the text of its thunk.
    #[tactic(auto, using(crate::proofs::PreparedIsSmall::within_limits, crate::proofs::PreparedIsSmall::keeps_rules))]
    pub fn blocked(&self) -> Option<&Prepared>
        ensures waits { option_map (λ prepared. prepared.now) result ≡ blocked_at self.now }
        // Whatever the keeper told: text and job are within their limits, and the job keeps the rules of a job.
        ensures limits { IfSome (blocked_at self.now) (λ prepared. (length prepared.text ≤ max_size) × (job_size prepared.job ≤ max_job)) }
        ensures rules { IfSome (blocked_at self.now) (λ prepared. IsTrue (job_keeps_rules prepared.job)) }
    {
        match &self.stage {
            Stage::Blocked(waiting) => Some(&waiting.prepared),
            _ => None,
        }
    }

    /// Takes the outcome of the job that was waited for: the outputs that aren't held are written, in order, and then a note.
    /// A failed outcome is a refusal. After a fault it is over.
    pub fn supply<K: Keeper>(
        &mut self,
        alloc: Global,
        keeper: &mut K,
        outcome: Outcome,
    ) -> Result<(), EvalFault>
        requires blocked { IsSome (blocked_at self.old) }
        requires fits { IfSome (blocked_at self.old) (λ prepared. Fits prepared.job outcome) }
        // Where the evaluation stands at this job, it goes on with this outcome.
        ensures supplies { K.tells → IfSome (blocked_at self.old) (λ prepared. StandsAt self.old (K.store keeper.old) prepared →
            Supplies self.old self.new prepared outcome (kept K.store K.writes keeper.old) (kept K.store K.writes keeper.new) result) }
        ensures cause { HasKeeperCause self.old.retries (K.faults keeper.old) (K.faults keeper.new) result }
        ensures tries { K.tells → TriesAtMost self.old.retries K.calls K.faults keeper.old keeper.new (keeper_failures result) }
        ensures walking { OnOk result (IsWalking self.new) }
        ensures over { OnErr result (is_over self.new ≡ true) }
        ensures setup { HasSetup self.old self.new }
        ensures work { OnOk result (work_of self.new < work_of self.old) }
    {
        let stage = replace(&mut self.stage, Stage::Turning);
        let waiting = stage.into_waiting();
        match self.finish(alloc, keeper, &waiting, &outcome) {
            Ok(()) => {
                self.stage = Stage::Walking;
                Ok(())
            }
            Err(fault) => {
                self.stage = Stage::Ended;
                Err(fault)
            }
        }
    }

    /// Whether it has come to its end, or to a fault.
    pub fn is_ended(&self) -> bool
        ensures { result ≡ is_over self.now }
    {
        match &self.stage {
            Stage::Ended => true,
            _ => false,
        }
    }
}
