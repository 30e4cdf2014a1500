//! Where an evaluation stands.

use object_name::{Many, Name};
use std::alloc::{AllocError, AllocFailed, Global};
use std::collections::VecDeque;
use thunk_codec::{Ref, Thunk};

/// What is gathered: values that are there, and references whose values are wanted next, in order.
#[derive(Drop)]
pub struct Level {
    pub done: Many<Name>,
    pub rest: VecDeque<Ref>,
}

/// A thunk that was entered for one of its outputs, and what was gathered round it.
#[derive(Drop)]
pub struct Frame {
    pub name: Name,
    pub index: u32,
    pub thunk: Thunk,
    pub outer: Level,
}

impl Level {
    ghost use Rattle.std.specs.Prelude.{◌≡◌, ◌<◌, ◌++◌, ◌∷◌, [], None, drop, length, IfOk, IfSome, OnOk, OnErr};
    ghost use Rattle.thunk_codec.specs.declared.reference.Ref.TheVariants.{Out};
    ghost use Rattle.thunk_codec.specs.Thunk.{IsThunk};
    ghost use Rattle.thunk_codec.specs.Resolved.{refs_of};

    /// The values of a thunk's function and inputs are wanted.
    pub fn of(alloc: Global, thunk: &Thunk) -> Result<Level, AllocError>
        ensures done { IfOk result (λ level. level.done ≡ []) }
        ensures rest { IfOk result (λ level. level.rest.items ≡ refs_of thunk.now) }
        ensures rules { OnOk result (IsThunk thunk.now) }
    {
        let mut rest = VecDeque::new(alloc);
        rest.push_back(*thunk.function())?;
        'inputs: for (_, reference) in thunk.inputs() {
            rest.push_back(*reference)?;
        }
        Ok(Level {
            done: Many::new(alloc),
            rest,
        })
    }

    /// The reference whose value is wanted next.
    pub fn next(&self) -> Option<Ref>
        ensures none { result ≡ None → self.now.rest.items ≡ [] }
        ensures some { IfSome result (λ next. self.now.rest.items ≡ next ∷ drop 1 self.now.rest.items) }
    {
        match self.rest.front() {
            Some(next) => Some(*next),
            None => None,
        }
    }

    /// Takes the value of the next reference.
    pub fn gather(&mut self, value: Name) -> Result<(), AllocFailed<Name>>
        ensures done { OnOk result (self.new.done ≡ self.old.done ++ value ∷ []) }
        ensures rest { OnOk result (self.new.rest.items ≡ drop 1 self.old.rest.items) }
        ensures done_stays { OnErr result (self.new.done ≡ self.old.done) }
        ensures rest_stays { OnErr result (self.new.rest.items ≡ self.old.rest.items) }
    {
        self.done.push(value)?;
        let _ = self.rest.pop_front();
        Ok(())
    }

    /// Wants the first output of a thunk in place of the next reference.
    pub fn pass(&mut self, output: Name)
        requires { 0 < length self.old.rest.items }
        ensures done { self.new.done ≡ self.old.done }
        ensures rest { self.new.rest.items ≡ Out output 0 ∷ drop 1 self.old.rest.items }
    {
        let _ = self.rest.pop_front();
        self.rest.push_front_reserved(Ref::Out(output, 0));
    }
}
