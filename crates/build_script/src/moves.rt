//! What each byte of a build line does.

ghost use Rattle.std.specs.Prelude.{◌≡◌, ◌==◌};
ghost use Rattle.std.specs.List.{list_any};
ghost use Rattle.build_script.specs.Moves.{is_shell, is_expanding, is_escapable, plain_move, first_move, double_move, after_backslash, move_of};

use text_lines::is_blank;

/// The bytes that are a shell's outside quotes.
const SHELL_BYTES: &[u8] = b";&|<>$()*?[~`";

/// Where a byte stands.
#[derive(Clone, Copy)]
pub(crate) enum Mode {
    /// Between words.
    Between,
    /// In a word, outside quotes.
    Plain,
    /// Behind a backslash outside quotes.
    Escaped,
    /// Between single quotes.
    Single,
    /// Between double quotes.
    Double,
    /// Behind a backslash between double quotes.
    DoubleEscaped,
    /// In a comment.
    Comment,
}

/// What a byte does. Each but the last two says where the next byte stands.
#[derive(Clone, Copy)]
pub(crate) enum Move {
    /// The byte isn't part of a word.
    Pass(Mode),
    /// The byte is one of the word.
    Take(Mode),
    /// The backslash before it is one too.
    TakeBoth(Mode),
    /// The word is complete.
    End,
    /// A shell would do something with the byte.
    Refuse,
}

/// Whether a byte is one of some bytes.
fn is_one_of(bytes: &[u8], byte: u8) -> bool
    ensures { result ≡ list_any (λ other. byte == other) bytes.now }
{
    bytes.iter().any(|other| byte == *other)
}

/// Whether a byte is a shell's outside quotes.
fn is_shell(byte: u8) -> bool
    ensures { result ≡ is_shell byte }
{
    is_one_of(SHELL_BYTES, byte)
}

/// Whether a byte is a shell's between double quotes.
fn is_expanding(byte: u8) -> bool
    ensures { result ≡ is_expanding byte }
{
    byte == b'$' || byte == b'`'
}

/// Whether a backslash makes a byte literal between double quotes.
fn is_escapable(byte: u8) -> bool
    ensures { result ≡ is_escapable byte }
{
    byte == b'"' || byte == b'\\' || is_expanding(byte)
}

/// A byte of a word outside quotes.
#[tactic(auto, unfolding(crate::specs::Moves::plain_move))]
fn plain_move(byte: u8) -> Move
    ensures { result ≡ plain_move byte }
{
    if byte == b'\\' {
        return Move::Pass(Mode::Escaped);
    }
    if byte == b'\'' {
        return Move::Pass(Mode::Single);
    }
    if byte == b'"' {
        return Move::Pass(Mode::Double);
    }
    if byte == 0 {
        return Move::Refuse;
    }
    if is_shell(byte) {
        return Move::Refuse;
    }
    Move::Take(Mode::Plain)
}

/// A byte between words.
#[tactic(auto, unfolding(crate::specs::Moves::first_move))]
fn first_move(byte: u8) -> Move
    ensures { result ≡ first_move byte }
{
    if is_blank(byte) {
        return Move::Pass(Mode::Between);
    }
    if byte == b'#' {
        return Move::Pass(Mode::Comment);
    }
    plain_move(byte)
}

/// A byte between double quotes.
#[tactic(auto, unfolding(crate::specs::Moves::double_move))]
fn double_move(byte: u8) -> Move
    ensures { result ≡ double_move byte }
{
    if byte == b'"' {
        return Move::Pass(Mode::Plain);
    }
    if byte == b'\\' {
        return Move::Pass(Mode::DoubleEscaped);
    }
    if byte == 0 {
        return Move::Refuse;
    }
    if is_expanding(byte) {
        return Move::Refuse;
    }
    Move::Take(Mode::Double)
}

/// A byte behind a backslash between double quotes.
#[tactic(auto, unfolding(crate::specs::Moves::after_backslash))]
fn after_backslash(byte: u8) -> Move
    ensures { result ≡ after_backslash byte }
{
    if byte == 0 {
        return Move::Refuse;
    }
    if is_escapable(byte) {
        return Move::Take(Mode::Double);
    }
    Move::TakeBoth(Mode::Double)
}

/// A byte in a word outside quotes, where a blank ends the word.
fn word_move(byte: u8) -> Move
    ensures { result ≡ move_of Mode.Plain byte }
{
    if is_blank(byte) {
        return Move::End;
    }
    plain_move(byte)
}

/// A byte behind a backslash outside quotes.
fn escaped_move(byte: u8) -> Move
    ensures { result ≡ move_of Mode.Escaped byte }
{
    if byte == 0 {
        return Move::Refuse;
    }
    Move::Take(Mode::Plain)
}

/// A byte between single quotes.
fn single_move(byte: u8) -> Move
    ensures { result ≡ move_of Mode.Single byte }
{
    if byte == b'\'' {
        return Move::Pass(Mode::Plain);
    }
    if byte == 0 {
        return Move::Refuse;
    }
    Move::Take(Mode::Single)
}

/// What a byte does, by where it stands.
pub(crate) fn move_of(mode: Mode, byte: u8) -> Move
    ensures { result ≡ move_of mode byte }
{
    match mode {
        Mode::Between => first_move(byte),
        Mode::Plain => word_move(byte),
        Mode::Escaped => escaped_move(byte),
        Mode::Single => single_move(byte),
        Mode::Double => double_move(byte),
        Mode::DoubleEscaped => after_backslash(byte),
        Mode::Comment => Move::Pass(Mode::Comment),
    }
}
