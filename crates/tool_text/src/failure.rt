//! Why a source can't be preprocessed.

ghost use Rattle.std.specs.Prelude.{◌≡◌};
ghost use Rattle.tool_text.specs.Cpp.{failure_status};

/// Why a source can't be preprocessed.
#[derive(Clone, Copy, Debug, Drop)]
pub enum Failure {
    /// A directive that is unknown, not of its form, or doesn't fit the groups around it.
    BadDirective,
    /// An included file that is nowhere.
    HeaderNotFound,
    /// A file within more than 200 others.
    TooDeep,
    /// A line after the 1,048,576th.
    TooManyLines,
    /// A line that brings the output over 16,777,216 bytes.
    OutputTooLong,
}

impl Failure {
    /// The status of the card.
    pub(crate) fn status(self) -> u8
        ensures { result ≡ failure_status self }
    {
        match self {
            Failure::BadDirective => 71,
            Failure::HeaderNotFound => 72,
            Failure::TooDeep => 73,
            Failure::TooManyLines => 74,
            Failure::OutputTooLong => 75,
        }
    }
}
