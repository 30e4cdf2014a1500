//! The normal form of a path's text.

ghost use Rattle.std.specs.Prelude.{◌≡◌, ◌∷◌, ◌||◌, ◌<◌, List, ℕ, [], true, false, length, codes, bytes_eq, IfOk, OnOk, MatchOption, slice_index, IsTrue};
ghost use Rattle.std.specs.List.{list_all, before_last, after_last};
ghost use Rattle.std.specs.Option.{option_map};
ghost use Rattle.thunk_codec.specs.Path.{is_slash, is_printable, pieces_of, after_piece, after_pieces, joined, components_of};
ghost use Rattle.thunk_codec.specs.Components.{is_plain, is_component, with_component};

use object_name::Bytes;
use std::alloc::{AllocError, Global};

/// The greatest length of a path, in bytes.
pub const MAX_PATH: usize = 1024;

/// The bytes before the first `/`, and those after it, where there is one.
fn first_piece(text: &[u8]) -> (&[u8], Option<&[u8]>)
    ensures { MatchOption result.1 (pieces_of text.now ≡ result.0.now ∷ [])
        (λ rest. (pieces_of text.now ≡ result.0.now ∷ pieces_of rest.now) × (length rest.now < length text.now)) }
{
    for (i, byte) in text.iter().enumerate() {
        if *byte == b'/' {
            return (&text[..i], Some(&text[i + 1..]));
        }
    }
    (text, None)
}

/// Takes the last component of a path away.
pub fn drop_last(path: &mut Bytes)
    ensures { path.new ≡ before_last is_slash path.old }
{
    'bytes: while let Some(byte) = path.0.pop() {
        if byte == b'/' {
            break;
        }
    }
}

/// The bytes after the last `/`, or all where there is none.
pub fn last_piece(text: &[u8]) -> &[u8]
    ensures { result.now ≡ after_last is_slash text.now }
{
    let mut start = text.len();
    'bytes: while start > 0 {
        if text[start - 1] == b'/' {
            return &text[start..];
        }
        start -= 1;
    }
    text
}

/// Appends a component to a path.
fn push_component(path: &mut Bytes, component: &[u8]) -> Result<(), AllocError>
    ensures { OnOk result (path.new ≡ with_component path.old component.now) }
{
    if !path.is_empty() {
        path.append(b"/")?;
    }
    path.append(component)?;
    Ok(())
}

/// Whether a piece of a text says nothing.
fn is_idle(piece: &[u8]) -> bool
    ensures { result ≡ (bytes_eq piece.now [] || bytes_eq piece.now (codes ".")) }
{
    piece.is_empty() || piece == b".".as_slice()
}

/// Whether a piece of a text takes the component before it away.
fn climbs(piece: &[u8]) -> bool
    ensures { result ≡ bytes_eq piece.now (codes "..") }
{
    piece == b"..".as_slice()
}

/// Adds a piece of a text to a path, and says whether there is a path then.
fn add_piece(path: &mut Bytes, piece: &[u8]) -> Result<bool, AllocError>
    ensures { (before : List (List ℕ)) → list_all is_component before ≡ true → path.old ≡ joined before
        → IfOk result (λ fine. MatchOption (after_piece before piece.now) (fine ≡ false) (λ after. (fine ≡ true) × (path.new ≡ joined after))) }
{
    if is_idle(piece) {
        return Ok(true);
    }
    if !climbs(piece) {
        push_component(path, piece)?;
        return Ok(true);
    }
    if path.is_empty() {
        return Ok(false);
    }
    drop_last(path);
    Ok(true)
}

/// The components of a printable text in normal form, joined.
fn normal(alloc: Global, text: &[u8]) -> Result<Option<Bytes>, AllocError>
    requires { list_all is_printable text.now ≡ true }
    ensures { IfOk result (λ path. path ≡ option_map joined (after_pieces [] (pieces_of text.now))) }
{
    let mut path = Bytes::new(alloc);
    let mut rest = text;
    'pieces: loop {
        let (piece, after) = first_piece(rest);
        if !add_piece(&mut path, piece)? {
            return Ok(None);
        }
        match after {
            None => return Ok(Some(path)),
            Some(next) => rest = next,
        }
    }
}

/// Whether a path may have these bytes.
fn is_printable_text(text: &[u8]) -> bool
    ensures { result ≡ list_all is_printable text.now }
{
    text.iter().all(|byte| 32 <= *byte && *byte <= 126)
}

/// Whether a text begins with `/`.
pub fn begins_with_slash(text: &[u8]) -> bool
    ensures { result ≡ is_slash (slice_index text.now 0) }
{
    !text.is_empty() && text[0] == b'/'
}

/// The normal path of a text, before its length is looked at.
#[tactic(auto, unfolding(crate::specs::Path::components_of))]
pub fn components(alloc: Global, text: &[u8]) -> Result<Option<Bytes>, AllocError>
    ensures { IfOk result (λ path. path ≡ option_map joined (components_of text.now)) }
{
    if begins_with_slash(text) {
        return Ok(None);
    }
    if !is_printable_text(text) {
        return Ok(None);
    }
    normal(alloc, text)
}
