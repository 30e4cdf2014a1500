//! What a command line asks for.

use object_name::Many;
use thunk_codec::Path;

/// What a command line of `ar`, `ranlib`, `strip`, `cp`, `mv` or `rm` asks for.
#[derive(Debug, Drop)]
pub enum BinPlan {
    /// Members are put into an archive, where `replace` says so; it gets a table of symbols, where
    /// `table` does.
    Ar {
        replace: bool,
        table: bool,
        archive: Path,
        members: Many<Path>,
    },
    /// An archive gets a table of symbols.
    Ranlib(Path),
    /// Files are stripped: each in its place, or the one file into `output`.
    Strip {
        output: Option<Path>,
        files: Many<Path>,
    },
    /// A file is copied.
    Copy {
        from: Path,
        to: Path,
    },
    /// A file is moved.
    Move {
        from: Path,
        to: Path,
    },
    /// Files are removed.
    Remove(Many<Path>),
    /// Nothing is done.
    Nothing,
}
