//! Commands, by their first words.

ghost use Rattle.std.specs.Prelude.{◌≡◌};
ghost use Rattle.model_binutils.specs.Plan.{is_idle, command_of};

/// A command of the model.
#[derive(Clone, Copy)]
pub(crate) enum Command {
    Ar,
    Ranlib,
    Strip,
    Copy,
    Move,
    Remove,
    /// `echo`, `true`, `:` or `mkdir`
    Nothing,
}

/// Whether a command has no effect.
fn is_idle(word: &[u8]) -> bool
    ensures { result ≡ is_idle word.now }
{
    word == b"echo".as_slice()
        || word == b"true".as_slice()
        || word == b":".as_slice()
        || word == b"mkdir".as_slice()
}

/// The command of a first word. None where the model has no such command.
#[tactic(auto, unfolding(crate::specs::Plan::command_of))]
pub(crate) fn command_of(word: &[u8]) -> Option<Command>
    ensures { result ≡ command_of word.now }
{
    if word == b"ar".as_slice() {
        return Some(Command::Ar);
    }
    if word == b"ranlib".as_slice() {
        return Some(Command::Ranlib);
    }
    if word == b"strip".as_slice() {
        return Some(Command::Strip);
    }
    if word == b"cp".as_slice() {
        return Some(Command::Copy);
    }
    if word == b"mv".as_slice() {
        return Some(Command::Move);
    }
    if word == b"rm".as_slice() {
        return Some(Command::Remove);
    }
    if is_idle(word) {
        return Some(Command::Nothing);
    }
    None
}
