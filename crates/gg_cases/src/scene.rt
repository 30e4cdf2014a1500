//! A store and files, as lists.

use crate::sections::{Place, Sections};
use object_name::{Bytes, Many, Name, TryCopy};
use std::alloc::{AllocError, Global};
use thunk_codec::Path;

/// A store and files.
#[derive(Drop)]
pub struct Scene {
    pub objects: Many<(Name, Bytes)>,
    pub notes: Many<(Name, Bytes)>,
    pub files: Many<(Path, Bytes)>,
}

/// The bytes under a name.
fn found<'a>(kept: &'a Many<(Name, Bytes)>, name: &Name) -> Option<&'a Bytes> {
    for (other, bytes) in kept.as_slice() {
        if other == name {
            return Some(bytes);
        }
    }
    None
}

impl Scene {
    /// What the sections make.
    pub fn of(alloc: Global, sections: &Sections) -> Result<Self, AllocError> {
        let mut scene = Scene {
            objects: Many::new(alloc),
            notes: Many::new(alloc),
            files: Many::new(alloc),
        };
        for section in sections.by_name.values() {
            let bytes = section.bytes.as_slice();
            scene.add(alloc, &section.place, bytes)?;
        }
        Ok(scene)
    }

    /// Puts bytes where they lie.
    fn add(&mut self, alloc: Global, place: &Place, bytes: &[u8]) -> Result<(), AllocError> {
        match place {
            Place::Object(name) => {
                let bytes = Bytes::from_slice(alloc, bytes)?;
                self.objects.push((*name, bytes))?;
            }
            Place::Note(name) => {
                let bytes = Bytes::from_slice(alloc, bytes)?;
                self.notes.push((*name, bytes))?;
            }
            Place::File(path) => {
                let bytes = Bytes::from_slice(alloc, bytes)?;
                self.files.push((path.copy(alloc)?, bytes))?;
            }
            Place::Nowhere => {}
        }
        Ok(())
    }

    pub fn copy(&self, alloc: Global) -> Result<Self, AllocError> {
        Ok(Scene {
            objects: self.objects.copy(alloc)?,
            notes: self.notes.copy(alloc)?,
            files: self.files.copy(alloc)?,
        })
    }

    /// The bytes under a name among the objects.
    pub fn object(&self, name: &Name) -> Option<&Bytes> {
        found(&self.objects, name)
    }

    /// The bytes under a name among the notes.
    pub fn note(&self, name: &Name) -> Option<&Bytes> {
        found(&self.notes, name)
    }

    /// The bytes of a file.
    pub fn file(&self, path: &Path) -> Option<&Bytes> {
        for (other, bytes) in self.files.as_slice() {
            if other == path {
                return Some(bytes);
            }
        }
        None
    }
}
