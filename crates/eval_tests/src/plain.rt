//! Evaluation by need as its rules say it: a program that calls itself, over lists.

ghost use Rattle.std.specs.Prelude.{◌≡◌, ◌+◌, IsTrue, IfOk};
ghost use Rattle.thunk_codec.specs.Resolved.{HaveValueKind};

use crate::content::{Content, found, held, put};
use crate::joining::WITH_ARGUMENT;
use need_eval::Refusal;
use object_name::{Bytes, Kind, MAX_OUTPUTS, Many, Name, TryCopy, name_of};
use reduction_cache::{encode_note, read_note};
use std::alloc::{AllocError, AllocFailed, Global};
use thunk_codec::{DecodeFault, Ref, Thunk, decode, encode, resolve};

/// The greatest length of a job's encoding, in bytes.
const MAX_JOB: u64 = 67_108_864;

/// Why the plain program has no values. Whatever isn't a refusal counts as out of memory.
#[derive(Clone, Copy, Debug)]
pub enum PlainFault {
    Refused(Refusal),
    Memory,
}

impl From<AllocError> for PlainFault {
    fn from(_: AllocError) -> Self {
        PlainFault::Memory
    }
}

impl<T: Drop> From<AllocFailed<T>> for PlainFault {
    fn from(_: AllocFailed<T>) -> Self {
        PlainFault::Memory
    }
}

/// An evaluation in which each job is joined as `Joins` does it.
#[derive(Drop)]
pub struct Plain {
    pub alloc: Global,
    pub content: Content,
    /// The names of what was written, in order.
    pub puts: Vec<Name>,
    /// The outputs of the thunks that were reduced.
    pub reduced: Vec<(Name, Many<Name>)>,
    pub steps: u32,
    pub budget: u32,
}

impl Plain {
    /// The values of some references, in order. At most `left` steps are left.
    #[cycle(plain)]
    pub fn values(&mut self, refs: &[Ref], left: u32) -> Result<Many<Name>, PlainFault> {
        let mut names = Many::new(self.alloc);
        'refs: for reference in refs {
            let name = self.value(reference, left)?;
            names.push(name)?;
        }
        Ok(names)
    }

    /// The value of a reference: a value that is held is its own; an output that is a value is that value, and one that is a
    /// thunk has the value of that thunk's first output, after a step.
    #[cycle(plain)]
    fn value(&mut self, reference: &Ref, left: u32) -> Result<Name, PlainFault> {
        let (thunk, index) = match reference {
            Ref::Value(name) => {
                self.object(*name)?;
                return Ok(*name);
            }
            Ref::Out(name, index) => (*name, *index),
        };
        let output = self.output(thunk, index, left)?;
        match output.kind() {
            Kind::Value => Ok(output),
            Kind::Thunk => {
                let deeper = self.count_step(output, left)?;
                self.value(&Ref::Out(output, 0), deeper)
            }
        }
    }

    /// An output of a thunk, which is reduced once.
    #[cycle(plain)]
    fn output(&mut self, name: Name, index: u32, left: u32) -> Result<Name, PlainFault> {
        if let Some(outputs) = self.outputs_of(name) {
            return output_at(name, outputs, index);
        }
        let thunk = self.thunk(name, index)?;
        let deeper = self.count_step(name, left)?;
        let refs = refs_of(self.alloc, &thunk)?;
        let values = self.values(refs.as_slice(), deeper)?;
        let outputs = self.reduce(name, &thunk, values.as_slice())?;
        let output = output_at(name, outputs.as_slice(), index)?;
        self.reduced.push((name, outputs))?;
        Ok(output)
    }

    /// Takes one step, where the budget has one: then one less is left.
    fn count_step(&mut self, name: Name, left: u32) -> Result<u32, PlainFault>
        ensures { IfOk result (λ deeper. deeper + 1 ≡ left) }
    {
        let budget = self.budget;
        if self.steps >= budget {
            return Err(PlainFault::Refused(Refusal::Spent { name, budget }));
        }
        self.steps = self.steps.saturating_add(1);
        left.checked_sub(1).ok_or(PlainFault::Memory)
    }

    /// The outputs of a thunk that was reduced.
    fn outputs_of(&self, name: Name) -> Option<&[Name]> {
        for (own, outputs) in &self.reduced {
            if *own == name {
                return Some(outputs.as_slice());
            }
        }
        None
    }

    fn object(&self, name: Name) -> Result<&[u8], PlainFault> {
        match held(self.content.objects.as_slice(), name) {
            Some(bytes) => Ok(bytes.as_slice()),
            None => Err(PlainFault::Refused(Refusal::Missing(name))),
        }
    }

    /// The thunk of this name, which has this output.
    fn thunk(&self, name: Name, index: u32) -> Result<Thunk, PlainFault> {
        let thunk = decoded(self.alloc, name, self.object(name)?)?;
        if index as usize >= thunk.outputs().len() {
            return Err(PlainFault::Refused(Refusal::NoOutput { name, index }));
        }
        Ok(thunk)
    }

    /// The outputs of a thunk, where its references have these values: those that a note has, or those of its function.
    fn reduce(
        &mut self,
        name: Name,
        thunk: &Thunk,
        values: &[Name],
    ) -> Result<Many<Name>, PlainFault> {
        let resolved = resolved_by(self.alloc, thunk, values)?;
        let bytes = resolved.resolved_size();
        if bytes > MAX_JOB {
            return Err(PlainFault::Refused(Refusal::TooBig { name, bytes }));
        }
        let note_name = name_of_thunk(self.alloc, &resolved)?;
        if let Some(outputs) = self.noted(note_name, resolved.outputs().len())? {
            return Ok(outputs);
        }
        let outputs = self.computed(name, &resolved)?;
        self.write_note(note_name, outputs.as_slice())?;
        Ok(outputs)
    }

    /// The outputs that a note has, where there is one of so many, and they are held.
    fn noted(&self, name: Name, number: usize) -> Result<Option<Many<Name>>, PlainFault> {
        let Some(text) = found(self.content.notes.as_slice(), name) else {
            return Ok(None);
        };
        let Some((resolved, outputs)) = read_note(self.alloc, text.as_slice())? else {
            return Ok(None);
        };
        if resolved != name {
            return Ok(None);
        }
        if outputs.len() != number {
            return Ok(None);
        }
        if !self.are_held(outputs.as_slice()) {
            return Ok(None);
        }
        Ok(Some(outputs))
    }

    fn are_held(&self, names: &[Name]) -> bool {
        for name in names {
            if held(self.content.objects.as_slice(), *name).is_none() {
                return false;
            }
        }
        true
    }

    /// The outputs of the function, which are written in order.
    fn computed(&mut self, name: Name, resolved: &Thunk) -> Result<Many<Name>, PlainFault> {
        let mut text = self.joined(resolved)?;
        if !resolved.args().is_empty() {
            let status = WITH_ARGUMENT;
            return Err(PlainFault::Refused(Refusal::FunctionFailed { name, status }));
        }
        let mut names = Many::new(self.alloc);
        for _ in resolved.outputs() {
            let output = self.written(text.copy(self.alloc)?)?;
            names.push(output)?;
            text.append(b"+")?;
        }
        Ok(names)
    }

    /// The function's bytes and those of the inputs, which are read in this order.
    fn joined(&self, resolved: &Thunk) -> Result<Bytes, PlainFault> {
        let function = self.object(*resolved.function().name())?;
        let mut text = Bytes::from_slice(self.alloc, function)?;
        for (_, input) in resolved.inputs() {
            text.append(self.object(*input.name())?)?;
        }
        Ok(text)
    }

    /// Writes an object, unless it is held, and gives its name.
    fn written(&mut self, bytes: Bytes) -> Result<Name, PlainFault> {
        let Ok(name) = name_of(bytes.as_slice()) else {
            return Err(PlainFault::Memory);
        };
        if held(self.content.objects.as_slice(), name).is_some() {
            return Ok(name);
        }
        put(&mut self.content.objects, name, bytes)?;
        self.puts.push(name)?;
        Ok(name)
    }

    fn write_note(&mut self, name: Name, outputs: &[Name]) -> Result<(), PlainFault> {
        let Some(text) = note_text(self.alloc, name, outputs)? else {
            return Err(PlainFault::Memory);
        };
        put(&mut self.content.notes, name, text)?;
        self.puts.push(name)?;
        Ok(())
    }
}

/// One of a thunk's outputs.
fn output_at(name: Name, outputs: &[Name], index: u32) -> Result<Name, PlainFault> {
    match outputs.get(index as usize) {
        Some(output) => Ok(*output),
        None => Err(PlainFault::Refused(Refusal::NoOutput { name, index })),
    }
}

/// The thunk whose text these bytes of an object are.
fn decoded(alloc: Global, name: Name, bytes: &[u8]) -> Result<Thunk, PlainFault> {
    match decode(alloc, bytes) {
        Ok(thunk) => Ok(thunk),
        Err(DecodeFault::BadThunk) => Err(PlainFault::Refused(Refusal::BadThunk(name))),
        Err(DecodeFault::Memory) => Err(PlainFault::Memory),
    }
}

/// The references of a thunk: its function's, and those of its inputs.
fn refs_of(alloc: Global, thunk: &Thunk) -> Result<Many<Ref>, PlainFault> {
    let mut refs = Many::new(alloc);
    refs.push(*thunk.function())?;
    for (_, reference) in thunk.inputs() {
        refs.push(*reference)?;
    }
    Ok(refs)
}

/// Whether some names are of values.
fn are_values(names: &[Name]) -> bool
    ensures { IsTrue result → HaveValueKind names.now }
{
    'names: for name in names {
        if name.kind() == Kind::Thunk {
            return false;
        }
    }
    true
}

/// A thunk with values in place of its references.
fn resolved_by(alloc: Global, thunk: &Thunk, values: &[Name]) -> Result<Thunk, PlainFault> {
    if !are_values(values) {
        return Err(PlainFault::Memory);
    }
    if values.is_empty() {
        return Err(PlainFault::Memory);
    }
    if values.len() - 1 != thunk.inputs().len() {
        return Err(PlainFault::Memory);
    }
    Ok(resolve(alloc, thunk, values)?)
}

/// The name of a thunk's text.
fn name_of_thunk(alloc: Global, thunk: &Thunk) -> Result<Name, PlainFault> {
    let text = encode(alloc, thunk)?;
    match name_of(text.as_slice()) {
        Ok(name) => Ok(name),
        Err(_) => Err(PlainFault::Memory),
    }
}

/// The text of the note that a thunk has these outputs, where there may be one.
pub fn note_text(alloc: Global, name: Name, outputs: &[Name]) -> Result<Option<Bytes>, PlainFault> {
    let Kind::Thunk = name.kind() else {
        return Ok(None);
    };
    if outputs.is_empty() {
        return Ok(None);
    }
    if outputs.len() > MAX_OUTPUTS {
        return Ok(None);
    }
    Ok(Some(encode_note(alloc, &name, outputs)?))
}
