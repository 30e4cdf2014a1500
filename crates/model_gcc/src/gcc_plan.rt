//! What a command line of gcc asks for.

use object_name::{Bytes, Many};
use thunk_codec::{Folder, Path};

/// The stage after which gcc stops.
#[derive(Clone, Copy, Debug, PartialEq, Eq)]
pub enum Stop {
    Preprocess,
    Compile,
    Assemble,
    Link,
}

/// What the stages work on: a file, by its suffix, or a library.
#[derive(Debug, Drop)]
pub enum Operand {
    /// `.c`: preprocessed, compiled and assembled.
    Source(Path),
    /// `.i`: compiled and assembled.
    Preprocessed(Path),
    /// `.s`: assembled.
    Assembly(Path),
    /// `.S`: preprocessed and assembled.
    AssemblySource(Path),
    /// Another file, which is linked as it is.
    Other(Path),
    /// A library, by its name.
    Library(Bytes),
}

/// What a command line of gcc asks for.
#[derive(Debug, Drop)]
pub struct GccPlan {
    pub stop: Stop,
    /// The file that the words name for what is made.
    pub output: Option<Path>,
    /// The arguments of the preprocessor after the path of the source: `-I`, `-D` and `-U` with their values, in order.
    pub cpp_words: Many<Bytes>,
    /// The arguments of the compiler: the words that are passed on, in order.
    pub cc_words: Many<Bytes>,
    /// Where headers are looked for, in order.
    pub include_folders: Many<Folder>,
    /// Where libraries are looked for, in order.
    pub lib_folders: Many<Folder>,
    /// The files and the libraries in order.
    pub operands: Many<Operand>,
}
