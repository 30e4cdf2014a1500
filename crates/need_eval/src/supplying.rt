//! What a walker does with the outcome of a job.

use crate::fault::EvalFault;
use crate::waiting::Waiting;
use crate::walker::Walker;
use crate::writing::keep_outcome;
use blob_store::Keeper;
use object_name::Name;
use std::alloc::Global;
use thunk_codec::Outcome;

impl Walker {
    ghost use Rattle.std.specs.Prelude.{◌≡◌, ◌<◌, IsTrue, OnOk};
    ghost use Rattle.thunk_codec.specs.Outcome.{Fits};
    ghost use Rattle.blob_store.specs.Keeping.{kept};
    ghost use Rattle.object_name.specs.Causes.{TriesAtMost};
    ghost use Rattle.need_eval.specs.declared.stage.Stage.TheVariants as stages;
    ghost use Rattle.need_eval.specs.StepContracts.{HasKeeperCause, keeper_failures};
    ghost use Rattle.need_eval.specs.WalkerInvariant.{is_inside};
    ghost use Rattle.need_eval.specs.Walking.{work_of, StandsAt, Supplies};
    ghost use Rattle.need_eval.specs.TurnContracts.{IsInTurn, IsReady};

    /// The name of the innermost thunk.
    fn innermost_name(&self) -> Name
        requires { IsTrue (is_inside self.now.frames.items self.now.level.rest.items) }
        ensures { IsReady self.now result }
    {
        match self.frames.front() {
            Some(inner) => inner.name,
            None => unreachable!(),
        }
    }

    /// Writes the outputs that a job's outcome has, and a note, and leaves the innermost thunk with them.
    pub(crate) fn finish<K: Keeper>(
        &mut self,
        alloc: Global,
        keeper: &mut K,
        waiting: &Waiting,
        outcome: &Outcome,
    ) -> Result<(), EvalFault>
        requires turning { self.old.stage ≡ stages.Turning }
        requires inside { IsTrue (is_inside self.old.frames.items self.old.level.rest.items) }
        requires fits { Fits waiting.now.prepared.job outcome.now }
        ensures supplies { K.tells → StandsAt self.old (K.store keeper.old) waiting.now.prepared →
            Supplies self.old self.new waiting.now.prepared outcome.now (kept K.store K.writes keeper.old) (kept K.store K.writes keeper.new) result }
        ensures cause { HasKeeperCause self.old.retries (K.faults keeper.old) (K.faults keeper.new) result }
        ensures tries { K.tells → TriesAtMost self.old.retries K.calls K.faults keeper.old keeper.new (keeper_failures result) }
        ensures in_turn { IsInTurn self.old self.new }
        ensures work { OnOk result (work_of self.new < work_of self.old) }
    {
        let name = self.innermost_name();
        let number = waiting.prepared.job.outputs.len();
        let outputs = keep_outcome(
            alloc,
            keeper,
            &name,
            &waiting.note_name,
            number,
            outcome,
            self.retries,
        )?;
        self.leave(alloc, outputs)?;
        Ok(())
    }
}
