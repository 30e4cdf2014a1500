//! The words of a build line.

ghost use Rattle.std.specs.Prelude.{◌≡◌, ◌++◌, length, Ok};
ghost use Rattle.file_tree.specs.Planning.{Finds};
ghost use Rattle.build_script.specs.LineWords.{no_bytes, number_of, shell_refusal, word_ended, with_move, with_bytes, ended_in, words_of};

use crate::moves::{Mode, Move, move_of};
use file_tree::{PlanFault, Reason};
use object_name::{Bytes, Many};
use std::alloc::Global;

/// What is read of a line.
#[derive(Drop)]
pub(crate) struct LineWords {
    /// Where the next byte stands.
    pub(crate) mode: Mode,
    /// The words that are complete.
    pub(crate) words: Many<Bytes>,
    /// The word that is read.
    pub(crate) word: Bytes,
}

/// The number of the word after so many.
fn number_of(count: usize) -> u32
    ensures { result ≡ number_of count }
{
    count.min(u32::MAX as usize) as u32
}

impl LineWords {
    fn new(alloc: Global) -> Self
        ensures { result ≡ no_bytes }
    {
        LineWords {
            mode: Mode::Between,
            words: Many::new(alloc),
            word: Bytes::new(alloc),
        }
    }

    /// The word that is read is refused.
    fn refused(&self) -> PlanFault
        ensures { result ≡ shell_refusal self.now }
    {
        PlanFault::Refused {
            at: number_of(self.words.len()),
            reason: Reason::Shell,
        }
    }

    /// With some bytes in the word.
    fn with_literal(mut self, mode: Mode, bytes: &[u8]) -> Result<LineWords, PlanFault>
        ensures { Finds result (Ok (record self { mode = mode; word = self.word ++ bytes.now })) }
    {
        self.word.append(bytes)?;
        self.mode = mode;
        Ok(self)
    }

    /// With the word complete.
    fn word_ended(self, alloc: Global) -> Result<LineWords, PlanFault>
        ensures { Finds result (Ok (word_ended self)) }
    {
        let LineWords {
            mut words,
            word,
            ..
        } = self;
        words.push(word)?;
        Ok(LineWords {
            mode: Mode::Between,
            words,
            word: Bytes::new(alloc),
        })
    }

    /// With what a byte does.
    fn with_move(mut self, alloc: Global, step: Move, byte: u8) -> Result<LineWords, PlanFault>
        ensures { Finds result (with_move step byte self) }
    {
        match step {
            Move::Pass(mode) => {
                self.mode = mode;
                Ok(self)
            }
            Move::Take(mode) => self.with_literal(mode, &[byte]),
            Move::TakeBoth(mode) => self.with_literal(mode, &[b'\\', byte]),
            Move::End => self.word_ended(alloc),
            Move::Refuse => Err(self.refused()),
        }
    }

    /// With all bytes of a line.
    fn read(alloc: Global, line: &[u8]) -> Result<LineWords, PlanFault>
        ensures { Finds result (with_bytes line.now no_bytes) }
    {
        let mut given = LineWords::new(alloc);
        let mut rest = line;
        'bytes: while let [byte, others @ ..] = rest {
            let step = move_of(given.mode, *byte);
            let more = given.with_move(alloc, step, *byte)?;
            given = more;
            rest = others;
        }
        Ok(given)
    }

    /// The words, with the one that is read.
    fn with_last(self) -> Result<Many<Bytes>, PlanFault>
        ensures { Finds result (ended_in Mode.Plain self) }
    {
        let LineWords {
            mut words,
            word,
            ..
        } = self;
        words.push(word)?;
        Ok(words)
    }

    /// The words at the end of the line.
    fn ended(self) -> Result<Many<Bytes>, PlanFault>
        ensures { Finds result (ended_in self.mode self) }
    {
        match self.mode {
            Mode::Between => Ok(self.words),
            Mode::Plain => self.with_last(),
            Mode::Escaped => Err(self.refused()),
            Mode::Single => Err(self.refused()),
            Mode::Double => Err(self.refused()),
            Mode::DoubleEscaped => Err(self.refused()),
            Mode::Comment => Ok(self.words),
        }
    }
}

/// The words of a build line, without their quotes and backslashes. What a shell would do something
/// with is refused, at the number of its word, counted from 0. A line feed is a byte like others:
/// `script_lines` cuts a text at them.
pub fn words_of(alloc: Global, line: &[u8]) -> Result<Many<Bytes>, PlanFault>
    ensures exact { Finds result (words_of line.now) }
{
    let given = LineWords::read(alloc, line)?;
    given.ended()
}
