//! What a keeper holds, as lists that are searched from the front.

use object_name::{Bytes, Name, TryCopy, name_of};
use std::alloc::{AllocError, Global};

/// Objects and notes by their names, each name once.
#[derive(Drop)]
pub struct Content {
    pub objects: Vec<(Name, Bytes)>,
    pub notes: Vec<(Name, Bytes)>,
}

/// The bytes under a name.
pub fn found(pairs: &[(Name, Bytes)], name: Name) -> Option<&Bytes> {
    for (own, bytes) in pairs {
        if *own == name {
            return Some(bytes);
        }
    }
    None
}

/// The bytes of an object: those under its name, where they have that name.
pub fn held(objects: &[(Name, Bytes)], name: Name) -> Option<&Bytes> {
    let bytes = found(objects, name)?;
    match name_of(bytes.as_slice()) {
        Ok(own) if own == name => Some(bytes),
        _ => None,
    }
}

/// Copies of some names with their bytes.
pub fn copied(alloc: Global, pairs: &[(Name, Bytes)]) -> Result<Vec<(Name, Bytes)>, AllocError> {
    let mut copies = Vec::new(alloc);
    for (name, bytes) in pairs {
        copies.push((*name, bytes.copy(alloc)?))?;
    }
    Ok(copies)
}

/// Puts bytes under a name, in the place of what stood there.
pub fn put(pairs: &mut Vec<(Name, Bytes)>, name: Name, bytes: Bytes) -> Result<(), AllocError> {
    match pairs.iter().position(|pair| pair.0 == name) {
        Some(i) => pairs[i] = (name, bytes),
        None => pairs.push((name, bytes))?,
    }
    Ok(())
}
