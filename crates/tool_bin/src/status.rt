//! The statuses of these cards.

/// Arguments, inputs or outputs that the card doesn't take.
pub const BAD_FORM: u8 = 64;
/// `cc1`: a line that isn't of the compiler's language.
pub const BAD_SOURCE_LINE: u8 = 81;
/// `as`: a line that isn't of the assembler's language.
pub const BAD_ASSEMBLY_LINE: u8 = 82;
/// An archive that isn't well-formed.
pub const BAD_ARCHIVE: u8 = 83;
/// A symbol that two added objects define.
pub const DUPLICATE_SYMBOL: u8 = 84;
/// A symbol that is wanted and that no added object defines.
pub const UNDEFINED_SYMBOL: u8 = 85;
/// An input that is no object.
pub const NOT_AN_OBJECT: u8 = 86;
