//! How a command line ended.

ghost use Rattle.std.specs.Prelude.{◌≡◌};
ghost use Rattle.gg_cli.specs.Endings.{code_of};

/// How a command line ended, with the exit status of the program.
#[derive(Clone, Copy, Debug, PartialEq, Eq)]
pub enum Status {
    /// All is done.
    Done = 0,
    /// A function failed: that of a thunk, or the tool of a line.
    FunctionFailed = 1,
    /// The words are no command line.
    Usage = 2,
    /// A wanted object isn't held.
    Missing = 3,
    /// A wanted thunk's bytes are the text of no thunk.
    BadThunk = 4,
    /// A thunk has no output of the wanted place.
    NoOutput = 5,
    /// The budget of steps is spent.
    Spent = 6,
    /// A job's encoding is over the limit.
    TooBig = 7,
    /// An item or a file is refused, or the input is too long.
    FileRefused = 8,
    /// A command or a word of it is not modelled.
    NotModelled = 9,
    /// Two objects have one name.
    Clash = 10,
    /// Two outcomes of one job differ.
    Differs = 11,
    /// The keeper failed.
    StoreFault = 12,
    /// The tree failed.
    FileFault = 13,
    /// The input or the output failed.
    ByteFault = 14,
    /// Each link failed more often than was tried again.
    LinksLost = 15,
    /// Memory ran out.
    Memory = 17,
}

impl Status {
    ghost use Rattle.gg_cli.specs.Endings.{code_of};

    /// The exit status of the program.
    pub fn code(&self) -> u8
        ensures { result ≡ code_of self.now }
    {
        *self as u8
    }
}
