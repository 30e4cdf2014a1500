//! What operands are to be.

/// What an operand is to be.
#[derive(Clone, Copy)]
pub(crate) enum Operand {
    /// A file.
    File,
    /// A file whose last component can be the name of a member of an archive.
    Member,
}
