//! The statuses of tools that can't do what is asked.

/// Arguments, inputs or outputs are not of the form that the card asks for.
pub(crate) const BAD_FORM: u8 = 64;

/// A file holds no number.
pub(crate) const NOT_A_NUMBER: u8 = 65;

/// A sum is 2^64 or more.
pub(crate) const SUM_TOO_GREAT: u8 = 66;
