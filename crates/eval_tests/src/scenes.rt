//! Small stores with thunks, made from a number.

use crate::content::put;
use crate::plain::note_text;
use crate::texts::thunk_text;
use object_name::{Bytes, Many, Name, TryCopy, name_of};
use reduction_cache::read_note;
use std::alloc::Global;
use std::test::Fail;
use thunk_codec::Ref;

/// The values that a thunk's references may name. The first is the function of the thunks that answer with a thunk.
const VALUES: [&[u8]; 6] = [b"", b"a", b"bc", b"def", b"-", b"gg"];

/// The lines of outputs that a thunk may have.
const OUTPUTS: [&[u8]; 3] = [b"o 1:x\no 1:y\n", b"o 1:x\n", b"o 1:x\n"];

/// Where the text of a thunk is cut into two values. The whole mark of a thunk's text would make the prefix one a thunk.
const CUT: usize = 5;

/// How many thunks a store has.
const THUNKS: u32 = 6;

/// Numbers that follow from a first one, by a linear congruence.
#[derive(Drop)]
pub struct Dice(pub u64);

impl Dice {
    /// A number below the number of sides.
    pub fn roll(&mut self, sides: usize) -> usize {
        self.0 = self
            .0
            .wrapping_mul(6_364_136_223_846_793_005)
            .wrapping_add(1_442_695_040_888_963_407);
        let high = usize::try_from(self.0 >> 33).unwrap_or(0);
        high.checked_rem(sides).unwrap_or(0)
    }

    /// One of some texts.
    fn pick(&mut self, texts: &[&'static [u8]]) -> &'static [u8] {
        match texts.get(self.roll(texts.len())) {
            Some(text) => text,
            None => b"",
        }
    }
}

/// A store that grows, and the texts of the thunks in it.
#[derive(Drop)]
pub struct Scene {
    alloc: Global,
    dice: Dice,
    pub objects: Vec<(Name, Bytes)>,
    texts: Vec<Bytes>,
    /// The names of the thunks, those first that the later ones refer to.
    pub names: Vec<Name>,
}

impl Scene {
    /// The store of a number.
    pub fn new(alloc: Global, seed: u64) -> Result<Scene, Fail> {
        let mut scene = Scene {
            alloc,
            dice: Dice(seed),
            objects: Vec::new(alloc),
            texts: Vec::new(alloc),
            names: Vec::new(alloc),
        };
        for text in VALUES {
            scene.keep(text)?;
        }
        for _ in 0..THUNKS {
            scene.add_thunk()?;
        }
        Ok(scene)
    }

    /// Adds an object, and gives its name.
    fn keep(&mut self, bytes: &[u8]) -> Result<Name, Fail> {
        let name = name_of(bytes)?;
        put(
            &mut self.objects,
            name,
            Bytes::from_slice(self.alloc, bytes)?,
        )?;
        Ok(name)
    }

    /// Adds a thunk: every third answers with the text of an earlier one, where there is one. Now and then it is none.
    fn add_thunk(&mut self) -> Result<(), Fail> {
        let index = self.dice.roll(self.texts.len().saturating_mul(3));
        let mut text = match self.texts.get(index) {
            Some(text) => {
                let text = text.copy(self.alloc)?;
                self.giving(text.as_slice())?
            }
            None => self.joining()?,
        };
        if self.dice.roll(50) == 0 {
            text.append(b"\n")?;
        }
        let name = self.keep(text.as_slice())?;
        self.names.push(name)?;
        self.texts.push(text)?;
        Ok(())
    }

    /// The text of a thunk that answers with this text, whose two halves are its inputs.
    fn giving(&mut self, text: &[u8]) -> Result<Bytes, Fail> {
        let (prefix, rest) = text.split_at(CUT.min(text.len()));
        let function = Ref::Value(name_of(VALUES[0])?);
        let inputs = [Ref::Value(self.keep(prefix)?), Ref::Value(self.keep(rest)?)];
        let outputs = self.dice.pick(OUTPUTS.as_slice());
        Ok(thunk_text(self.alloc, function, b"", &inputs, outputs)?)
    }

    /// The text of a thunk that joins what its references name, or with an argument fails.
    fn joining(&mut self) -> Result<Bytes, Fail> {
        let function = self.reference()?;
        let mut inputs = Many::new(self.alloc);
        for _ in 0..self.dice.roll(4) {
            inputs.push(self.reference()?)?;
        }
        let args = match self.dice.roll(30) {
            0 => b"a 4:fail\n".as_slice(),
            _ => b"",
        };
        let outputs = self.dice.pick(OUTPUTS.as_slice());
        Ok(thunk_text(self.alloc, function, args, inputs.as_slice(), outputs)?)
    }

    /// A value, or an output of a thunk that was added before, which may not be there.
    fn reference(&mut self) -> Result<Ref, Fail> {
        let index = u32::try_from(self.dice.roll(20).saturating_sub(17)).unwrap_or(0);
        let thunk = self.dice.roll(self.names.len().saturating_add(3));
        match self.names.get(thunk) {
            Some(name) => Ok(Ref::Out(*name, index)),
            None => Ok(Ref::Value(name_of(self.dice.pick(VALUES.as_slice()))?)),
        }
    }
}

/// Some objects, a few of them taken away or damaged.
pub fn spoiled_objects(
    alloc: Global,
    dice: &mut Dice,
    objects: &[(Name, Bytes)],
) -> Result<Vec<(Name, Bytes)>, Fail> {
    let mut left = Vec::new(alloc);
    for (name, bytes) in objects {
        let under = match dice.roll(60) {
            0 => continue,
            1 => b"!".as_slice(),
            _ => bytes.as_slice(),
        };
        left.push((*name, Bytes::from_slice(alloc, under)?))?;
    }
    Ok(left)
}

/// Some notes, a few of them replaced by those of other thunks, or by false ones.
pub fn spoiled_notes(
    alloc: Global,
    dice: &mut Dice,
    notes: &[(Name, Bytes)],
) -> Result<Vec<(Name, Bytes)>, Fail> {
    let mut left = Vec::new(alloc);
    for (name, text) in notes {
        let Some((_, other)) = notes.get(dice.roll(notes.len())) else {
            continue;
        };
        let note = match dice.roll(6) {
            0 => other.copy(alloc)?,
            1 => false_note(alloc, *name, other.as_slice())?,
            _ => text.copy(alloc)?,
        };
        left.push((*name, note))?;
    }
    Ok(left)
}

/// The note that a thunk has the outputs that another has by its note.
fn false_note(alloc: Global, name: Name, other: &[u8]) -> Result<Bytes, Fail> {
    let (_, outputs) = read_note(alloc, other)?.ok_or("a note")?;
    match note_text(alloc, name, outputs.as_slice())? {
        Some(note) => Ok(note),
        None => Ok(Bytes::from_slice(alloc, other)?),
    }
}
