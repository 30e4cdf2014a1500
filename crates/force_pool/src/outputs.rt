//! The outputs of the thunks that were run, or were noted, ahead of the evaluation.

ghost use Rattle.std.specs.Prelude.{◌≡◌, IfSome};
ghost use Rattle.object_name.specs.declared.kind.Kind.TheVariants as kinds;

use crate::place::Place;
use object_name::{Kind, Many, Name};
use std::alloc::{AllocError, Global};
use std::collections::HashMap;
use thunk_codec::Ref;

/// The outputs of some thunks, and where their bytes stand in the book.
#[derive(Drop)]
pub(crate) struct Outputs {
    /// The names of the outputs, by the names of the thunks.
    names: HashMap<Name, Many<Name>>,
    /// The places of outputs, by their names.
    places: HashMap<Name, Place>,
}

impl Outputs {
    pub(crate) fn new(alloc: Global) -> Outputs {
        Outputs {
            names: HashMap::new(alloc),
            places: HashMap::new(alloc),
        }
    }

    /// Takes the outputs of a thunk.
    pub(crate) fn add(&mut self, thunk: Name, names: Many<Name>) -> Result<(), AllocError> {
        self.names.insert(thunk, names)?;
        Ok(())
    }

    /// Takes the places of outputs of the job of a number.
    pub(crate) fn place(&mut self, id: u64, names: &[Name]) -> Result<(), AllocError> {
        'names: for (index, name) in names.iter().enumerate() {
            self.places.insert(*name, Place { id, index })?;
        }
        Ok(())
    }

    /// Where an object stands in the book, or stood until its outcome was taken.
    pub(crate) fn place_of(&self, name: &Name) -> Option<Place> {
        self.places.get(name).copied()
    }

    /// An output of a thunk.
    fn output(&self, thunk: &Name, index: u32) -> Option<Name> {
        let outputs = self.names.get(thunk)?;
        outputs.as_slice().get(index as usize).copied()
    }

    /// The value of a reference: an output that is a thunk has the value of this thunk's first output.
    pub(crate) fn value(&self, reference: &Ref) -> Option<Name>
        ensures { IfSome result (λ value. value.kind ≡ kinds.Value) }
    {
        let mut here = *reference;
        'outputs: for _ in 0..=self.names.len() {
            let output = match here {
                Ref::Value(name) => return if_value(name),
                Ref::Out(thunk, index) => self.output(&thunk, index)?,
            };
            if let Some(value) = if_value(output) {
                return Some(value);
            }
            here = Ref::Out(output, 0);
        }
        None
    }
}

/// A name, where it is that of a value.
fn if_value(name: Name) -> Option<Name>
    ensures { IfSome result (λ value. value.kind ≡ kinds.Value) }
{
    match name.kind() {
        Kind::Value => Some(name),
        Kind::Thunk => None,
    }
}
