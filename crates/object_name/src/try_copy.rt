//! Copies that may be refused for memory.

ghost use Rattle.std.specs.Prelude.{◌≡◌, IfOk};

use crate::bytes::Bytes;
use crate::many::Many;
use crate::name::Name;
use std::alloc::{AllocError, Global};

/// A value that can be copied where memory allows.
pub trait TryCopy: Drop {
    fn copy(&self, alloc: Global) -> Result<Self, AllocError>
    where
        Self: Sized,
        ensures { IfOk result (λ copy. copy ≡ self.now) };
}

impl TryCopy for Bytes {
    fn copy(&self, alloc: Global) -> Result<Self, AllocError> {
        Bytes::from_slice(alloc, self.as_slice())
    }
}

impl TryCopy for Name {
    fn copy(&self, _alloc: Global) -> Result<Self, AllocError> {
        Ok(*self)
    }
}

impl<A: TryCopy, B: TryCopy> TryCopy for (A, B) {
    fn copy(&self, alloc: Global) -> Result<Self, AllocError> {
        let first = self.0.copy(alloc)?;
        let second = self.1.copy(alloc)?;
        Ok((first, second))
    }
}

impl<T: TryCopy> TryCopy for Many<T> {
    fn copy(&self, alloc: Global) -> Result<Self, AllocError> {
        let mut made = Many::new(alloc);
        'copied: for item in self.as_slice() {
            made.push(item.copy(alloc)?)?;
        }
        Ok(made)
    }
}
