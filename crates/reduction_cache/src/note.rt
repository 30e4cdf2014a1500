//! The text of a note.

ghost use Rattle.std.specs.Prelude.{◌≡◌, ◌≤◌, ◌++◌, length, Some, IfOk, IfSome, OnOk};
ghost use Rattle.std.specs.List.{flat_map, AllByRecursion};
ghost use Rattle.object_name.specs.Name.{IsName};
ghost use Rattle.std.specs.Option.{option_map};
ghost use Rattle.object_name.specs.declared.kind.Kind.TheVariants.{Thunk};
ghost use Rattle.reduction_cache.specs.Note.{NoteOf, Note, name_line, note_text};
ghost use Rattle.reduction_cache.specs.Reading.{name_at, names_at, note_of};

use object_name::{Bytes, Kind, MAX_OUTPUTS, Many, Name, SPELLING_LEN};
use std::alloc::{AllocError, Global};
use text_lines::strip_prefix;

/// Appends a name and a line feed.
fn append_name(text: &mut Bytes, name: &Name) -> Result<(), AllocError>
    ensures line { OnOk result (text.new ≡ text.old ++ name_line name.now) }
    ensures name { OnOk result (IsName name.now) }
{
    let mut spelling = [0u8; SPELLING_LEN];
    name.spell(&mut spelling);
    text.append(&spelling)?;
    text.append(b"\n")
}

/// Appends names, each with a line feed.
fn append_names(text: &mut Bytes, names: &[Name]) -> Result<(), AllocError>
    ensures lines { OnOk result (text.new ≡ text.old ++ flat_map name_line names.now) }
    ensures names { OnOk result (AllByRecursion IsName names.now) }
{
    'names: for name in names {
        append_name(text, name)?;
    }
    Ok(())
}

/// The text of a note: that the thunk of this name, whose references are all values, has these outputs.
pub fn encode_note(alloc: Global, resolved: &Name, outputs: &[Name]) -> Result<Bytes, AllocError>
    requires kind { resolved.now.kind ≡ Thunk }
    requires some_output { 1 ≤ length outputs.now }
    requires few_outputs { length outputs.now ≤ 64 }
    ensures text { IfOk result (λ text. text ≡ note_text (record { resolved = resolved.now; outputs = outputs.now })) }
    ensures note { IfOk result (λ text. Note text (record { resolved = resolved.now; outputs = outputs.now })) }
{
    let mut text = Bytes::from_slice(alloc, b"gg-note 1\n")?;
    append_name(&mut text, resolved)?;
    append_names(&mut text, outputs)?;
    text.append(b"end\n")?;
    Ok(text)
}

/// The name at the beginning of a line of its own, and what comes after the line.
#[tactic(auto, unfolding(crate::specs::Reading::name_at))]
fn name_at(bytes: &[u8]) -> Option<(Name, &[u8])>
    ensures { option_map (λ read. (read.0, read.1.now)) result ≡ name_at bytes.now }
{
    if bytes.len() < SPELLING_LEN {
        return None;
    }
    let (spelling, rest) = bytes.split_at(SPELLING_LEN);
    let name = Name::read(spelling)?;
    let rest = strip_prefix(b"\n", rest)?;
    Some((name, rest))
}

/// The names up to the last line, as many as a note has at most, and what comes after them.
fn names_at(alloc: Global, bytes: &[u8]) -> Result<Option<(Many<Name>, &[u8])>, AllocError>
    ensures { IfOk result (λ found. option_map (λ read. (read.0, read.1.now)) found ≡ names_at 64 bytes.now) }
{
    let mut names = Many::new(alloc);
    let mut rest = bytes;
    'names: for _ in 0..MAX_OUTPUTS {
        if rest.starts_with(b"end\n") {
            return Ok(Some((names, rest)));
        }
        let Some(read) = name_at(rest) else {
            return Ok(None);
        };
        names.push(read.0)?;
        rest = read.1;
    }
    Ok(Some((names, rest)))
}

/// The note whose text the bytes are, by the definition as a total function.
#[tactic(auto, unfolding(crate::specs::Reading::note_of))]
fn note_at(alloc: Global, bytes: &[u8]) -> Result<Option<(Name, Many<Name>)>, AllocError>
    ensures { IfOk result (λ found. option_map (λ note. record { resolved = note.0; outputs = note.1 }) found ≡ note_of bytes.now) }
{
    let Some(rest) = strip_prefix(b"gg-note 1\n", bytes) else {
        return Ok(None);
    };
    let Some((resolved, rest)) = name_at(rest) else {
        return Ok(None);
    };
    let Kind::Thunk = resolved.kind() else {
        return Ok(None);
    };
    let Some((outputs, rest)) = names_at(alloc, rest)? else {
        return Ok(None);
    };
    if outputs.is_empty() {
        return Ok(None);
    }
    let Some(rest) = strip_prefix(b"end\n", rest) else {
        return Ok(None);
    };
    if !rest.is_empty() {
        return Ok(None);
    }
    Ok(Some((resolved, outputs)))
}

/// The resolved thunk's name and its outputs, where the bytes are the text of a note.
pub fn read_note(alloc: Global, bytes: &[u8]) -> Result<Option<(Name, Many<Name>)>, AllocError>
    // What is read has this text.
    ensures found { IfOk result (λ found. IfSome found (λ note. Note bytes.now (record { resolved = note.0; outputs = note.1 }))) }
    // Nothing is found only where no note has the bytes as its text.
    ensures only { (note : NoteOf) → Note bytes.now note → IfOk result (λ found. option_map (λ note. record { resolved = note.0; outputs = note.1 }) found ≡ Some note) }
    // The same by the definition as a total function.
    ensures exact { IfOk result (λ found. option_map (λ note. record { resolved = note.0; outputs = note.1 }) found ≡ note_of bytes.now) }
{
    note_at(alloc, bytes)
}
