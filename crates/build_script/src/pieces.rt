//! The pieces of build lines that refusals show.

ghost use Rattle.std.specs.Prelude.{◌≡◌};
ghost use Rattle.file_tree.specs.Planning.{place_after};
ghost use Rattle.build_script.specs.Pieces.{is_between, begins_word, mode_after, number_after, is_start, from_word, piece_of};

use crate::moves::{Mode, Move, move_of};
use text_lines::{is_blank, next_word};

/// Whether no word is being read.
fn is_between(mode: Mode) -> bool
    ensures { result ≡ is_between mode }
{
    match mode {
        Mode::Between => true,
        Mode::Plain => false,
        Mode::Escaped => false,
        Mode::Single => false,
        Mode::Double => false,
        Mode::DoubleEscaped => false,
        Mode::Comment => false,
    }
}

/// Whether a byte between words begins one.
fn begins_word(byte: u8) -> bool
    ensures { result ≡ begins_word byte }
{
    !is_blank(byte) && byte != b'#'
}

/// Where the next byte stands.
fn mode_after(step: Move) -> Mode
    ensures { result ≡ mode_after step }
{
    match step {
        Move::Pass(mode) => mode,
        Move::Take(mode) => mode,
        Move::TakeBoth(mode) => mode,
        Move::End => Mode::Between,
        Move::Refuse => Mode::Comment,
    }
}

/// The number of the next word.
fn number_after(step: Move, number: u32) -> u32
    ensures { result ≡ number_after step number }
{
    match step {
        Move::Pass(_) => number,
        Move::Take(_) => number,
        Move::TakeBoth(_) => number,
        Move::End => number.saturating_add(1),
        Move::Refuse => number,
    }
}

/// Whether the word `at` begins here.
fn is_start(at: u32, number: u32, mode: Mode, byte: u8) -> bool
    ensures { result ≡ is_start at number mode byte }
{
    is_between(mode) && begins_word(byte) && number == at
}

/// The line from the first byte of the word `at` on.
#[tactic(auto, unfolding(crate::specs::Pieces::from_word))]
fn from_word(line: &[u8], at: u32) -> &[u8]
    ensures { result.now ≡ from_word at 0 Mode.Between line.now }
{
    let mut number = 0;
    let mut mode = Mode::Between;
    let mut rest = line;
    'bytes: while let [byte, others @ ..] = rest {
        if is_start(at, number, mode, *byte) {
            return rest;
        }
        let step = move_of(mode, *byte);
        number = number_after(step, number);
        mode = mode_after(step);
        rest = others;
    }
    rest
}

/// What is written of the word `at` of a line, up to the next blank, quoted or not. Empty where the
/// line has no such word.
pub fn piece_of(line: &[u8], at: u32) -> &[u8]
    ensures { result.now ≡ piece_of line.now at }
{
    match next_word(from_word(line, at)) {
        Some((word, _)) => word,
        None => b"",
    }
}
