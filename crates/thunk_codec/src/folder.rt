//! Folders, from which paths are seen.

ghost use Rattle.std.specs.Prelude.{◌≡◌, IsTrue, IfOk, bytes_eq};
ghost use Rattle.thunk_codec.specs.Folder.{folder_of, folder_text, is_folder, joined_from};

use crate::normal::{MAX_PATH, begins_with_slash, components};
use crate::path::Path;
use object_name::{Bytes, TryCopy};
use std::alloc::{AllocError, Global};
use std::marker::Model;

/// A folder: a normal path, or the root, which is spelled `.`. Contracts see its bytes.
#[derive(Debug, Drop, PartialEq, Eq, Hash, PartialOrd, Ord)]
pub struct Folder {
    text: Bytes,
}

impl Model for Folder {
    ghost use Rattle.std.specs.Prelude.{List, ℕ, IsTrue};
    ghost use Rattle.thunk_codec.specs.Folder.{is_folder};

    ghost Value = { List ℕ };

    ghost view = { λ f. f.text };

    ghost invariant = { λ f. IsTrue (is_folder f.text) };

    ghost inverse = { λ text. record { text = text } };
}

impl TryCopy for Folder {
    fn copy(&self, alloc: Global) -> Result<Self, AllocError> {
        let text = self.text.copy(alloc)?;
        Ok(Folder { text })
    }
}

/// The folder of a normal path, or the root where there are no bytes.
pub fn folder_with(alloc: Global, path: Bytes) -> Result<Folder, AllocError>
    requires { IsTrue (is_folder (folder_text path)) }
    ensures { IfOk result (λ folder. folder ≡ folder_text path) }
{
    let text = spelled(alloc, path)?;
    Ok(Folder { text })
}

/// How the folder of a normal path is spelled, or the root where there are no bytes.
fn spelled(alloc: Global, path: Bytes) -> Result<Bytes, AllocError>
    ensures { IfOk result (λ text. text ≡ folder_text path) }
{
    if path.is_empty() {
        return Bytes::from_slice(alloc, b".");
    }
    Ok(path)
}

impl Folder {
    /// The folder of a text. There is none where the text begins with `/`, has a byte outside 32 to 126, where `..` has no
    /// component before it, or where the result is over 1,024 bytes.
    #[tactic(auto, unfolding(crate::specs::Folder::folder_of))]
    pub fn read(alloc: Global, text: &[u8]) -> Result<Option<Folder>, AllocError>
        ensures { IfOk result (λ found. found ≡ folder_of text.now) }
    {
        let Some(path) = components(alloc, text)? else {
            return Ok(None);
        };
        if path.len() > MAX_PATH {
            return Ok(None);
        }
        Ok(Some(folder_with(alloc, path)?))
    }

    /// The bytes of the folder.
    pub fn text(&self) -> &[u8]
        ensures text { result.now ≡ self.now }
        ensures folder { IsTrue (is_folder self.now) }
    {
        self.text.as_slice()
    }

    /// The normal path of a text that is seen from the folder. There is none where the text begins with `/`, or where the
    /// text after the folder and a `/` has no normal path.
    #[tactic(auto, unfolding(crate::specs::Folder::joined_from))]
    pub fn join(&self, alloc: Global, text: &[u8]) -> Result<Option<Path>, AllocError>
        ensures { IfOk result (λ found. found ≡ joined_from self.now text.now) }
    {
        if begins_with_slash(text) {
            return Ok(None);
        }
        let mut whole = self.text.copy(alloc)?;
        whole.append(b"/")?;
        whole.append(text)?;
        Path::read(alloc, whole.as_slice())
    }
}
