//! The turns of a walker that take a reference: its value is gathered, or its thunk is entered.

use crate::fault::{EvalFault, Refusal};
use crate::frame::{Frame, Level};
use crate::reading::{object, output_at, thunk_at};
use crate::stage::Halt;
use crate::walker::Walker;
use blob_store::Keeper;
use object_name::{Kind, Name};
use std::alloc::Global;
use std::mem::replace;
use thunk_codec::{Ref, Thunk};

impl Walker {
    ghost use Rattle.std.specs.Prelude.{◌≡◌, ◌≤◌, ◌<◌, ◌∷◌, ℕ, drop, None, IfOk, IfErr, IfSome, OnOk};
    ghost use Rattle.object_name.specs.declared.kind.Kind.TheVariants as kinds;
    ghost use Rattle.thunk_codec.specs.declared.reference.Ref.TheVariants.{Value, Out};
    ghost use Rattle.blob_store.specs.Store.{Store};
    ghost use Rattle.need_eval.specs.Eval.{State};
    ghost use Rattle.need_eval.specs.declared.stage.Stage.TheVariants as stages;
    ghost use Rattle.need_eval.specs.StepContracts.{Reads, OnlyReads, ReadCause, entry, stepped};
    ghost use Rattle.need_eval.specs.Walking.{reduced_at, work_of};
    ghost use Rattle.need_eval.specs.TurnContracts.{Turns, Turned, IsHalted, IsOutput, IsInTurn};

    /// Takes a value that is wanted next.
    fn take_value<K: Keeper>(
        &mut self,
        alloc: Global,
        keeper: &mut K,
        name: Name,
    ) -> Result<(), EvalFault>
        requires turning { self.old.stage ≡ stages.Turning }
        requires next { self.old.level.rest.items ≡ Value name ∷ drop 1 self.old.level.rest.items }
        ensures turns { K.tells → Turns self.old self.new (K.store keeper.old) result }
        ensures only_reads { OnlyReads K.tells K.store K.writes K.faults K.calls keeper.old keeper.new self.old.retries result }
        ensures in_turn { IsInTurn self.old self.new }
        ensures work { OnOk result (work_of self.new < work_of self.old) }
    {
        object(alloc, keeper, &name, self.retries)?;
        self.level.gather(name)?;
        Ok(())
    }

    /// Goes on with an output that is wanted next and is a thunk.
    fn pass(&mut self, name: Name, index: u32, output: Name) -> Result<(), EvalFault>
        requires turning { self.old.stage ≡ stages.Turning }
        requires next { self.old.level.rest.items ≡ Out name index ∷ drop 1 self.old.level.rest.items }
        requires known { IsOutput self.old name index output }
        requires kind { output.kind ≡ kinds.Thunk }
        ensures turns { (store : Store) → Turns self.old self.new store result }
        ensures cause { (retries before after : ℕ) → IfErr result (ReadCause retries before after) }
        ensures in_turn { IsInTurn self.old self.new }
        ensures work { OnOk result (work_of self.new < work_of self.old) }
    {
        if self.steps >= self.budget {
            return Err(EvalFault::Refused(Refusal::Spent {
                name: output,
                budget: self.budget,
            }));
        }
        self.steps += 1;
        self.level.pass(output);
        Ok(())
    }

    /// Goes on with an output that is wanted next of a thunk that was reduced.
    fn take_known(&mut self, name: Name, index: u32, output: Name) -> Result<(), EvalFault>
        requires turning { self.old.stage ≡ stages.Turning }
        requires next { self.old.level.rest.items ≡ Out name index ∷ drop 1 self.old.level.rest.items }
        requires known { IsOutput self.old name index output }
        ensures turns { (store : Store) → Turns self.old self.new store result }
        ensures cause { (retries before after : ℕ) → IfErr result (ReadCause retries before after) }
        ensures in_turn { IsInTurn self.old self.new }
        ensures work { OnOk result (work_of self.new < work_of self.old) }
    {
        match output.kind() {
            Kind::Value => {
                self.level.gather(output)?;
                Ok(())
            }
            Kind::Thunk => self.pass(name, index, output),
        }
    }

    /// Whether a thunk has the wanted output, and the budget a step.
    fn check_entry(&self, name: &Name, index: u32, thunk: &Thunk) -> Result<(), EvalFault>
        ensures reads { (s : State) → s.steps ≡ self.now.steps → Reads (λ _. thunk.now) (entry self.now.budget name.now index thunk.now s) (stepped s) result }
        ensures step { OnOk result (self.now.steps < self.now.budget) }
        ensures cause { (retries before after : ℕ) → IfErr result (ReadCause retries before after) }
    {
        if index as usize >= thunk.outputs().len() {
            return Err(EvalFault::Refused(Refusal::NoOutput { name: *name, index }));
        }
        if self.steps >= self.budget {
            return Err(EvalFault::Refused(Refusal::Spent {
                name: *name,
                budget: self.budget,
            }));
        }
        Ok(())
    }

    /// Enters a thunk of which an output is wanted next.
    fn enter<K: Keeper>(
        &mut self,
        alloc: Global,
        keeper: &mut K,
        name: Name,
        index: u32,
    ) -> Result<(), EvalFault>
        requires turning { self.old.stage ≡ stages.Turning }
        requires next { self.old.level.rest.items ≡ Out name index ∷ drop 1 self.old.level.rest.items }
        requires not_reduced { reduced_at self.old name ≡ None }
        ensures turns { K.tells → Turns self.old self.new (K.store keeper.old) result }
        ensures only_reads { OnlyReads K.tells K.store K.writes K.faults K.calls keeper.old keeper.new self.old.retries result }
        ensures in_turn { IsInTurn self.old self.new }
        ensures work { OnOk result (work_of self.new < work_of self.old) }
    {
        let thunk = thunk_at(alloc, keeper, &name, self.retries)?;
        self.check_entry(&name, index, &thunk)?;
        let inside = Level::of(alloc, &thunk)?;
        self.frames.reserve(1)?;
        let mut outer = replace(&mut self.level, inside);
        let _ = outer.rest.pop_front();
        self.frames.push_front_reserved(Frame {
            name,
            index,
            thunk,
            outer,
        });
        self.steps += 1;
        Ok(())
    }

    /// Goes on with an output that is wanted next.
    fn take_output<K: Keeper>(
        &mut self,
        alloc: Global,
        keeper: &mut K,
        name: Name,
        index: u32,
    ) -> Result<(), EvalFault>
        requires turning { self.old.stage ≡ stages.Turning }
        requires next { self.old.level.rest.items ≡ Out name index ∷ drop 1 self.old.level.rest.items }
        ensures turns { K.tells → Turns self.old self.new (K.store keeper.old) result }
        ensures only_reads { OnlyReads K.tells K.store K.writes K.faults K.calls keeper.old keeper.new self.old.retries result }
        ensures in_turn { IsInTurn self.old self.new }
        ensures work { OnOk result (work_of self.new < work_of self.old) }
    {
        match self.reduced.get(&name) {
            Some(outputs) => {
                let output = output_at(&name, index, outputs.as_slice())?;
                self.take_known(name, index, output)
            }
            None => self.enter(alloc, keeper, name, index),
        }
    }

    /// Takes the reference that is wanted next.
    fn take<K: Keeper>(
        &mut self,
        alloc: Global,
        keeper: &mut K,
        next: &Ref,
    ) -> Result<(), EvalFault>
        requires turning { self.old.stage ≡ stages.Turning }
        requires next { self.old.level.rest.items ≡ next.now ∷ drop 1 self.old.level.rest.items }
        ensures turns { K.tells → Turns self.old self.new (K.store keeper.old) result }
        ensures only_reads { OnlyReads K.tells K.store K.writes K.faults K.calls keeper.old keeper.new self.old.retries result }
        ensures in_turn { IsInTurn self.old self.new }
        ensures work { OnOk result (work_of self.new < work_of self.old) }
    {
        match next {
            Ref::Value(name) => self.take_value(alloc, keeper, *name),
            Ref::Out(name, index) => self.take_output(alloc, keeper, *name, *index),
        }
    }

    /// One turn: the next reference is taken, or where all values are there the innermost thunk is left.
    pub(crate) fn turn<K: Keeper>(
        &mut self,
        alloc: Global,
        keeper: &mut K,
    ) -> Result<Option<Halt>, EvalFault>
        requires { self.old.stage ≡ stages.Turning }
        ensures turns { K.tells → Turned self.old self.new (K.store keeper.old) result }
        ensures halts { IfOk result (λ turn. IfSome turn (λ halt. IsHalted self.new halt)) }
        ensures only_reads { OnlyReads K.tells K.store K.writes K.faults K.calls keeper.old keeper.new self.old.retries result }
        ensures in_turn { IsInTurn self.old self.new }
        ensures work { OnOk result (work_of self.new ≤ work_of self.old) }
        ensures less { IfOk result (λ turn. turn ≡ None → work_of self.new < work_of self.old) }
    {
        let Some(next) = self.level.next() else {
            return self.turn_out(alloc, keeper);
        };
        self.take(alloc, keeper, &next)?;
        Ok(None)
    }
}
