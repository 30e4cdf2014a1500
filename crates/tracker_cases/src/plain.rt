//! A plain program for a tracker: a list of all calls, walked over anew for each answer.

use crate::call::{Answered, Call};
use object_name::{Kind, Name};
use std::alloc::{AllocError, Global};
use std::marker::Model;
use thunk_codec::Ref;

/// The most thunks that are added.
const MOST: usize = 262_144;

/// What is wanted, all calls, and the thunks in reach in the order in which they were met.
#[derive(Drop)]
pub struct Plain {
    alloc: Global,
    roots: Vec<Ref>,
    calls: Vec<Call>,
    met: Vec<Name>,
}

// Contracts see nothing of it.
impl Model for Plain {
    ghost Value = { Unit {0} };

    ghost view = { λ _. tt };
}

/// Whether a name is among some.
fn is_among(names: &[Name], name: &Name) -> bool {
    names.iter().any(|other| *other == *name)
}

/// Whether a reference is among some.
fn has_ref(refs: &[Ref], reference: &Ref) -> bool {
    refs.iter().any(|other| *other == *reference)
}

/// The name and the references of the thunk that a call adds.
fn added(call: &Call) -> Option<(&Name, &[Ref])> {
    match call {
        Call::Add { name, refs } => Some((name, refs.as_slice())),
        _ => None,
    }
}

/// The outputs that a call gives a thunk.
fn given<'a>(call: &'a Call, thunk: &Name) -> Option<&'a [Name]> {
    match call {
        Call::Absorb { name, outputs } if *name == *thunk => Some(outputs.as_slice()),
        _ => None,
    }
}

impl Plain {
    pub fn new(alloc: Global, roots: Vec<Ref>) -> Result<Plain, AllocError> {
        let mut plain = Plain {
            alloc,
            roots,
            calls: Vec::new(alloc),
            met: Vec::new(alloc),
        };
        plain.meet()?;
        Ok(plain)
    }

    /// The references of a thunk, where it was added.
    fn refs(&self, thunk: &Name) -> Option<&[Ref]> {
        'calls: for call in &self.calls {
            if let Some((name, refs)) = added(call) {
                if *name == *thunk {
                    return Some(refs);
                }
            }
        }
        None
    }

    /// The outputs of a thunk, where it was absorbed.
    fn outputs(&self, thunk: &Name) -> Option<&[Name]> {
        'calls: for call in &self.calls {
            if let Some(outputs) = given(call, thunk) {
                return Some(outputs);
            }
        }
        None
    }

    /// An output of a thunk, where it is known.
    fn output(&self, thunk: &Name, index: u32) -> Option<Name> {
        self.outputs(thunk)?.get(index as usize).copied()
    }

    fn is_barred(&self, thunk: &Name) -> bool {
        self.calls.iter().any(|call| match call {
            Call::Bar { name } => *name == *thunk,
            _ => false,
        })
    }

    /// What an output leads to: the references of its thunk, and the first output of the thunk that it is.
    fn next(&self, thunk: &Name, index: u32) -> Result<Vec<Ref>, AllocError> {
        let mut next = match self.refs(thunk) {
            Some(refs) => refs.to_vec(self.alloc)?,
            None => Vec::new(self.alloc),
        };
        if let Some(output) = self.output(thunk, index) {
            if output.kind() == Kind::Thunk {
                next.push(Ref::Out(output, 0))?;
            }
        }
        Ok(next)
    }

    /// The references in reach, in the order of a depth-first walk from the roots.
    fn reach(&self) -> Result<Vec<Ref>, AllocError> {
        let mut reach = Vec::new(self.alloc);
        let mut todo = self.roots.as_slice().to_vec(self.alloc)?;
        todo.reverse();
        'steps: for _ in 0..u64::MAX {
            let Some(reference) = todo.pop() else {
                return Ok(reach);
            };
            if has_ref(reach.as_slice(), &reference) {
                continue;
            }
            reach.push(reference)?;
            if let Ref::Out(thunk, index) = &reference {
                let mut next = self.next(thunk, *index)?;
                next.reverse();
                todo.append(&mut next)?;
            }
        }
        Err(AllocError)
    }

    /// Notes the thunks that are newly in reach.
    fn meet(&mut self) -> Result<(), AllocError> {
        let reach = self.reach()?;
        'refs: for reference in &reach {
            if let Ref::Out(thunk, _) = reference {
                if !is_among(self.met.as_slice(), thunk) {
                    self.met.push(*thunk)?;
                }
            }
        }
        Ok(())
    }

    /// The thunks in reach that were neither added nor barred, in the order of meeting.
    pub fn unknown(&self) -> Result<Vec<Name>, AllocError> {
        let mut unknown = Vec::new(self.alloc);
        'thunks: for thunk in &self.met {
            if self.refs(thunk).is_none() && !self.is_barred(thunk) {
                unknown.push(*thunk)?;
            }
        }
        Ok(unknown)
    }

    /// Whether a reference has a value. A chain of thunks that thunks gave has as many links as there were calls at most, unless it
    /// goes in a circle.
    fn has_value(&self, reference: &Ref) -> bool {
        let mut at = *reference;
        'links: for _ in 0..self.calls.len().saturating_add(1) {
            let next = match &at {
                Ref::Value(_) => return true,
                Ref::Out(thunk, index) => self.output(thunk, *index),
            };
            let Some(output) = next else {
                return false;
            };
            if output.kind() == Kind::Value {
                return true;
            }
            at = Ref::Out(output, 0);
        }
        false
    }

    /// Whether a thunk of these references is ready.
    fn is_ready(&self, thunk: &Name, refs: &[Ref]) -> bool {
        if !is_among(self.met.as_slice(), thunk) || self.outputs(thunk).is_some() {
            return false;
        }
        !self.is_barred(thunk) && refs.iter().all(|reference| self.has_value(reference))
    }

    /// The added thunks in reach whose references all have values and that were neither absorbed nor barred, in the order of adding.
    pub fn ready(&self) -> Result<Vec<Name>, AllocError> {
        let mut ready = Vec::new(self.alloc);
        'calls: for call in &self.calls {
            if let Some((thunk, refs)) = added(call) {
                if self.is_ready(thunk, refs) {
                    ready.push(*thunk)?;
                }
            }
        }
        Ok(ready)
    }

    /// What is answered to a call.
    fn looked_at(&self, call: &Call) -> Result<Answered, AllocError> {
        let unknown = self.unknown()?;
        let ready = self.ready()?;
        Ok(match call {
            Call::Add { name, .. } if !is_among(unknown.as_slice(), name) => Answered::NotUnknown,
            Call::Absorb { name, .. } if !is_among(ready.as_slice(), name) => Answered::NotReady,
            Call::Bar { name }
                if !is_among(unknown.as_slice(), name) && !is_among(ready.as_slice(), name) => {
                Answered::Neither
            }
            Call::Add { .. }
                if self
                    .calls
                    .iter()
                    .filter(|call| added(call).is_some())
                    .count()
                    >= MOST => { Answered::Full }
            _ => Answered::Done,
        })
    }

    /// Takes a call, where it may be made.
    pub fn answer(&mut self, call: Call) -> Result<Answered, AllocError> {
        let answered = self.looked_at(&call)?;
        if answered == Answered::Done {
            self.calls.push(call)?;
            self.meet()?;
        }
        Ok(answered)
    }
}
