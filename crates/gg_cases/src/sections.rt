//! The sections of a case file by their names.

use crate::case_text::SectionText;
use crate::section_bytes::{Marks, joined, marked_bytes};
use crate::wrong::Wrong;
use indexmap::IndexMap;
use object_name::{Bytes, Name, SPELLING_LEN, name_of};
use std::alloc::{AllocError, Global};
use thunk_codec::Path;

/// Where the bytes of a section lie when a case begins.
#[derive(Drop)]
pub enum Place {
    Object(Name),
    Note(Name),
    File(Path),
    Nowhere,
}

/// Some bytes with a name of their own, where they are short enough for one.
#[derive(Drop)]
pub struct Section {
    pub place: Place,
    pub bytes: Bytes,
    pub name: Option<Name>,
}

/// The sections of a case file by their names, in order.
#[derive(Drop)]
pub struct Sections {
    pub by_name: IndexMap<String, Section>,
}

/// What a section's first line says.
#[derive(Drop)]
struct Head<'a> {
    kind: &'a str,
    name: &'a str,
    under: Option<&'a str>,
    marks: Marks,
}

impl<'a> Head<'a> {
    fn read(text: &'a str) -> Option<Self> {
        let (words, marks) = match text.split_once(" (") {
            Some((words, marks)) => (words, Marks::read(marks)?),
            None => (text, Marks::none()),
        };
        let (kind, names) = words.split_once(' ')?;
        let (name, under) = match names.split_once(" under ") {
            Some((name, under)) => (name, Some(under)),
            None => (names, None),
        };
        if name.contains(' ') {
            return None;
        }
        Some(Head {
            kind,
            name,
            under,
            marks,
        })
    }
}

/// The spelling of a name.
pub fn spelled(alloc: Global, name: &Name) -> Result<String, AllocError> {
    let mut spelling = [0u8; SPELLING_LEN];
    name.spell(&mut spelling);
    let mut text = String::new(alloc);
    for byte in spelling {
        text.push(char::from(byte))?;
    }
    Ok(text)
}

/// A fault of form.
fn bad(number: usize, why: &'static str) -> Wrong {
    Wrong::Form { number, why }
}

impl Sections {
    /// Reads the sections. Each names those before it.
    pub fn read(alloc: Global, texts: &[SectionText<'_>]) -> Result<Self, Wrong> {
        let mut sections = Sections {
            by_name: IndexMap::new(alloc),
        };
        for text in texts {
            sections.add(alloc, text)?;
        }
        Ok(sections)
    }

    /// The section of a name.
    pub fn get(&self, number: usize, name: &str) -> Result<&Section, Wrong> {
        self.by_name
            .get(name)
            .ok_or(bad(number, "no section of this name"))
    }

    /// The bytes of the first section with a content name.
    pub fn named(&self, name: &Name) -> Option<&Bytes> {
        for section in self.by_name.values() {
            if section.name.as_ref() == Some(name) {
                return Some(&section.bytes);
            }
        }
        None
    }

    /// The content name of a section.
    pub fn content_name(&self, number: usize, name: &str) -> Result<Name, Wrong> {
        let section = self.get(number, name)?;
        section
            .name
            .ok_or(bad(number, "a section that is too long for a name"))
    }

    /// A text with content names in the place of names in braces.
    pub fn substituted(&self, alloc: Global, number: usize, text: &str) -> Result<String, Wrong> {
        let mut pieces = text.split('{');
        let mut made = String::from_str(alloc, pieces.next().unwrap_or(""))?;
        for piece in pieces {
            self.append_piece(alloc, number, piece, &mut made)?;
        }
        Ok(made)
    }

    /// Appends the content name of a name that a brace closes, and what stands behind it.
    fn append_piece(
        &self,
        alloc: Global,
        number: usize,
        piece: &str,
        made: &mut String,
    ) -> Result<(), Wrong> {
        let Some((name, rest)) = piece.split_once('}') else {
            return Err(bad(number, "a brace that isn't closed"));
        };
        let name = self.content_name(number, name)?;
        made.push_str(spelled(alloc, &name)?.as_str())?;
        made.push_str(rest)?;
        Ok(())
    }

    /// Adds a section.
    fn add(&mut self, alloc: Global, text: &SectionText<'_>) -> Result<(), Wrong> {
        let number = text.number;
        let head = Head::read(text.head).ok_or(bad(number, "not the first line of a section"))?;
        if self.by_name.contains_key(head.name) {
            return Err(bad(number, "a second section of this name"));
        }
        let bytes = self.bytes(alloc, &head, text)?;
        let name = name_of(bytes.as_slice()).ok();
        let place = self.place(alloc, number, &head, name.as_ref())?;
        let place = if head.marks.held {
            place
        } else {
            Place::Nowhere
        };
        let key = String::from_str(alloc, head.name)?;
        self.by_name.insert(key, Section { place, bytes, name })?;
        Ok(())
    }

    /// The bytes of a section.
    fn bytes(
        &self,
        alloc: Global,
        head: &Head<'_>,
        text: &SectionText<'_>,
    ) -> Result<Bytes, Wrong> {
        let whole = if head.kind == "card" {
            let name = head.name;
            format!(in alloc; "gg-tool {name}\n")?
        } else {
            joined(alloc, text.lines.as_slice())?
        };
        let whole = self.substituted(alloc, text.number, whole.as_str())?;
        marked_bytes(alloc, text.number, whole.as_str(), &head.marks)
    }

    /// Where the bytes of a section lie.
    fn place(
        &self,
        alloc: Global,
        number: usize,
        head: &Head<'_>,
        own: Option<&Name>,
    ) -> Result<Place, Wrong> {
        match (head.kind, head.under) {
            ("value" | "thunk" | "card", None) => {
                let name = own.ok_or(bad(number, "too long for an object"))?;
                Ok(Place::Object(*name))
            }
            ("object", Some(other)) => Ok(Place::Object(self.content_name(number, other)?)),
            ("note", Some(other)) => Ok(Place::Note(self.content_name(number, other)?)),
            ("file", None) => Ok(Place::File(path_of(alloc, number, head.name)?)),
            _ => Err(bad(number, "no such kind of section")),
        }
    }
}

/// The path of a text.
pub fn path_of(alloc: Global, number: usize, text: &str) -> Result<Path, Wrong> {
    Path::read(alloc, text.as_bytes())?.ok_or(bad(number, "not a path"))
}
