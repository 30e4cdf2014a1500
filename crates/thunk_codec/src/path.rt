//! Normal paths.

ghost use Rattle.std.specs.Prelude.{◌≡◌, IsTrue, IfOk, bytes_eq};
ghost use Rattle.thunk_codec.specs.Path.{path_of, is_path};
ghost use Rattle.thunk_codec.specs.Folder.{parent_of, last_of};

use crate::folder::{Folder, folder_with};
use crate::normal::{MAX_PATH, components, drop_last, last_piece};
use object_name::{Bytes, TryCopy};
use std::alloc::{AllocError, Global};
use std::marker::Model;

/// A normal path: 1 to 1,024 bytes from 32 to 126, without empty components, `.` and `..`. Contracts see its bytes.
#[derive(Debug, Drop, PartialEq, Eq, Hash, PartialOrd, Ord)]
pub struct Path {
    text: Bytes,
}

impl Model for Path {
    ghost use Rattle.std.specs.Prelude.{List, ℕ, IsTrue};
    ghost use Rattle.thunk_codec.specs.Path.{is_path};

    ghost Value = { List ℕ };

    ghost view = { λ p. p.text };

    ghost invariant = { λ p. IsTrue (is_path p.text) };

    ghost inverse = { λ text. record { text = text } };
}

impl TryCopy for Path {
    fn copy(&self, alloc: Global) -> Result<Self, AllocError> {
        let text = self.text.copy(alloc)?;
        Ok(Path { text })
    }
}

impl Path {
    /// The normal path of a text. There is none where the text begins with `/`, has a byte outside 32 to 126, where `..`
    /// has no component before it, or where the result is empty or over 1,024 bytes.
    #[tactic(auto, unfolding(crate::specs::Path::path_of))]
    pub fn read(alloc: Global, text: &[u8]) -> Result<Option<Path>, AllocError>
        ensures { IfOk result (λ found. found ≡ path_of text.now) }
    {
        let Some(text) = components(alloc, text)? else {
            return Ok(None);
        };
        if text.is_empty() || text.len() > MAX_PATH {
            return Ok(None);
        }
        Ok(Some(Path { text }))
    }

    /// The bytes of the path.
    pub fn text(&self) -> &[u8]
        ensures text { result.now ≡ self.now }
        ensures normal { IsTrue (is_path self.now) }
    {
        self.text.as_slice()
    }

    /// The folder of all but the last component.
    #[tactic(auto, using(crate::proofs::Folders::parent_by_slash, crate::proofs::Folders::parent_is_folder))]
    pub fn folder(&self, alloc: Global) -> Result<Folder, AllocError>
        ensures { IfOk result (λ folder. folder ≡ parent_of self.now) }
    {
        let mut text = Bytes::from_slice(alloc, self.text())?;
        drop_last(&mut text);
        folder_with(alloc, text)
    }

    /// The last component.
    #[tactic(auto, using(crate::proofs::Folders::last_by_slash))]
    pub fn last(&self) -> &[u8]
        ensures { result.now ≡ last_of self.now }
    {
        last_piece(self.text())
    }
}
