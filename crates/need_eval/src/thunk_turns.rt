//! The turns of a walker that leave a thunk: all values that were wanted for it are there.

use crate::evaluating::Values;
use crate::fault::{EvalFault, Refusal};
use crate::jobs::job_of;
use crate::prepared::Prepared;
use crate::reading::{noted, text_name};
use crate::stage::Halt;
use crate::waiting::Waiting;
use crate::walker::Walker;
use blob_store::Keeper;
use object_name::{Bytes, Many, Name};
use std::alloc::{AllocError, Global};
use std::collections::VecDeque;
use std::mem::replace;
use thunk_codec::{Ref, Thunk, encode, resolve};

/// The greatest length of a job's encoding, in bytes.
const MAX_JOB: u64 = 67_108_864;

impl Walker {
    ghost use Rattle.std.specs.Prelude.{◌≡◌, ◌≤◌, ◌<◌, [], None, Some, Ok, length, IfOk, IfSome, OnOk};
    ghost use Rattle.object_name.specs.Name.{ObjectName, name_of};
    ghost use Rattle.thunk_codec.specs.Thunk.{Text, text_of};
    ghost use Rattle.thunk_codec.specs.Job.{resolved_size, max_job};
    ghost use Rattle.blob_store.specs.Store.{Store};
    ghost use Rattle.reduction_cache.specs.Hit.{hit_of};
    ghost use Rattle.need_eval.specs.declared.stage.Stage.TheVariants as stages;
    ghost use Rattle.need_eval.specs.StepContracts.{OnlyReads};
    ghost use Rattle.need_eval.specs.Walking.{work_of};
    ghost use Rattle.need_eval.specs.TurnContracts.{Asks, IsInTurn, IsInnermost, IsHalted, Leaves, Turned};

    /// The innermost thunk with the values that were gathered, and its name, where any was entered.
    fn resolved(&self, alloc: Global) -> Result<Option<(Name, Thunk)>, AllocError>
        requires { self.now.level.rest.items ≡ [] }
        ensures none { IfOk result (λ found. found ≡ None → self.now.frames.items ≡ []) }
        ensures some { IfOk result (λ found. IfSome found (λ innermost. IsInnermost self.now innermost.0 innermost.1)) }
    {
        match self.frames.front() {
            Some(inner) => {
                let thunk = resolve(alloc, &inner.thunk, self.level.done.as_slice())?;
                Ok(Some((inner.name, thunk)))
            }
            None => Ok(None),
        }
    }

    /// Leaves the innermost thunk with its outputs.
    pub(crate) fn leave(&mut self, alloc: Global, outputs: Many<Name>) -> Result<(), AllocError>
        requires turning { self.old.stage ≡ stages.Turning }
        requires inside { 0 < length self.old.frames.items }
        requires gathered { self.old.level.rest.items ≡ [] }
        ensures leaves { OnOk result (Leaves self.old self.new outputs) }
        ensures in_turn { IsInTurn self.old self.new }
        ensures work { OnOk result (work_of self.new < work_of self.old) }
    {
        let mut frames = replace(&mut self.frames, VecDeque::new(alloc));
        let inner = frames.pop_front().unwrap();
        let name = inner.name;
        let mut outer = inner.outer;
        outer.rest.push_front(Ref::Out(name, inner.index))?;
        self.reduced.insert(name, outputs)?;
        self.level = outer;
        self.frames = frames;
        Ok(())
    }

    /// Asks for the outcome of the job of the innermost thunk, whose text this is and of which no note is known.
    fn ask<K: Keeper>(
        &self,
        alloc: Global,
        keeper: &mut K,
        thunk: &Thunk,
        text: Bytes,
        note_name: Name,
    ) -> Result<Waiting, EvalFault>
        requires gathered { self.now.level.rest.items ≡ [] }
        requires innermost { (name : ObjectName) × IsInnermost self.now name thunk.now }
        requires small { resolved_size thunk.now ≤ max_job }
        requires text { Text text thunk.now }
        requires named { note_name ≡ name_of text }
        requires miss { K.tells → hit_of (K.store keeper.old) (name_of (text_of thunk.now)) (length thunk.now.outputs) ≡ None }
        ensures asks { K.tells → Asks self.now (K.store keeper.old) result }
        ensures only_reads { OnlyReads K.tells K.store K.writes K.faults K.calls keeper.old keeper.new self.now.retries result }
    {
        let job = job_of(alloc, keeper, thunk, self.retries)?;
        let prepared = Prepared { text, job };
        Ok(Waiting {
            prepared,
            note_name,
        })
    }

    /// Comes out of the innermost thunk, whose values are all there, or asks for the outcome of its job.
    fn come_out<K: Keeper>(
        &mut self,
        alloc: Global,
        keeper: &mut K,
        name: Name,
        thunk: &Thunk,
    ) -> Result<Option<Halt>, EvalFault>
        requires turning { self.old.stage ≡ stages.Turning }
        requires gathered { self.old.level.rest.items ≡ [] }
        requires innermost { IsInnermost self.old name thunk.now }
        ensures turns { K.tells → Turned self.old self.new (K.store keeper.old) result }
        ensures halts { IfOk result (λ turn. IfSome turn (λ halt. IsHalted self.new halt)) }
        ensures only_reads { OnlyReads K.tells K.store K.writes K.faults K.calls keeper.old keeper.new self.old.retries result }
        ensures in_turn { IsInTurn self.old self.new }
        ensures work { OnOk result (work_of self.new ≤ work_of self.old) }
        ensures less { IfOk result (λ turn. turn ≡ None → work_of self.new < work_of self.old) }
    {
        let bytes = thunk.resolved_size();
        if bytes > MAX_JOB {
            return Err(EvalFault::Refused(Refusal::TooBig { name, bytes }));
        }
        let text = encode(alloc, thunk)?;
        let note_name = text_name(text.as_slice());
        let outputs = thunk.outputs().len() as u32;
        let Some(known) = noted(alloc, keeper, &note_name, outputs, self.retries)? else {
            let waiting = self.ask(alloc, keeper, thunk, text, note_name)?;
            return Ok(Some(Halt::AtJob(waiting)));
        };
        self.leave(alloc, known)?;
        Ok(None)
    }

    /// Ends with the values.
    fn end(&mut self, alloc: Global) -> Halt
        requires turning { self.old.stage ≡ stages.Turning }
        requires outside { self.old.frames.items ≡ [] }
        requires gathered { self.old.level.rest.items ≡ [] }
        ensures turns { (store : Store) → Turned self.old self.new store (Ok (Some result)) }
        ensures halts { IsHalted self.new result }
        ensures in_turn { IsInTurn self.old self.new }
        ensures work { work_of self.new ≡ work_of self.old }
    {
        let names = replace(&mut self.level.done, Many::new(alloc));
        Halt::AtEnd(Values {
            names,
            steps: self.steps,
        })
    }

    /// Goes on where all values round here are there.
    pub(crate) fn turn_out<K: Keeper>(
        &mut self,
        alloc: Global,
        keeper: &mut K,
    ) -> Result<Option<Halt>, EvalFault>
        requires turning { self.old.stage ≡ stages.Turning }
        requires gathered { self.old.level.rest.items ≡ [] }
        ensures turns { K.tells → Turned self.old self.new (K.store keeper.old) result }
        ensures halts { IfOk result (λ turn. IfSome turn (λ halt. IsHalted self.new halt)) }
        ensures only_reads { OnlyReads K.tells K.store K.writes K.faults K.calls keeper.old keeper.new self.old.retries result }
        ensures in_turn { IsInTurn self.old self.new }
        ensures work { OnOk result (work_of self.new ≤ work_of self.old) }
        ensures less { IfOk result (λ turn. turn ≡ None → work_of self.new < work_of self.old) }
    {
        let Some(innermost) = self.resolved(alloc)? else {
            return Ok(Some(self.end(alloc)));
        };
        let (name, thunk) = innermost;
        self.come_out(alloc, keeper, name, &thunk)
    }
}
