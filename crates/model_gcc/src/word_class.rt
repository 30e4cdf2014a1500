//! What the words of gcc are, by themselves.

ghost use Rattle.std.specs.Prelude.{◌≡◌};
ghost use Rattle.model_gcc.specs.WordClass.{is_for_a_part, is_optimization, is_language, is_standard, is_general, is_passed_on, class_of, other_class};

use crate::gcc_plan::Stop;

/// An option that takes a value, joined to it or as the next word.
#[derive(Clone, Copy)]
pub(crate) enum Key {
    /// `-o`
    Output,
    /// `-I`
    IncludeFolder,
    /// `-D`
    Define,
    /// `-U`
    Undefine,
    /// `-L`
    LibraryFolder,
    /// `-l`
    LibraryName,
}

/// What a word is, where it isn't the value of the word before it.
#[derive(Clone, Copy)]
pub(crate) enum WordClass {
    /// `-E`, `-S` or `-c`.
    StopAt(Stop),
    /// `-o`, which may be given once.
    OutputOption,
    /// Another option that takes a value.
    ValueOption(Key),
    /// A word for the compiler.
    PassedOn,
    /// A word that the model doesn't have.
    Unmodelled,
    /// A file.
    File,
}

/// Whether a word is for the linker, the assembler or the preprocessor alone.
fn is_for_a_part(word: &[u8]) -> bool
    ensures { result ≡ is_for_a_part word.now }
{
    word.starts_with(b"-Wl,") || word.starts_with(b"-Wa,") || word.starts_with(b"-Wp,")
}

/// Whether a word is about optimization, debugging or the machine.
fn is_optimization(word: &[u8]) -> bool
    ensures { result ≡ is_optimization word.now }
{
    word.starts_with(b"-O") || word.starts_with(b"-g") || word.starts_with(b"-m")
}

/// Whether a word is about warnings, features or the standard.
fn is_language(word: &[u8]) -> bool
    ensures { result ≡ is_language word.now }
{
    word.starts_with(b"-W") || word.starts_with(b"-f") || word.starts_with(b"-std=")
}

/// Whether a word asks for the standard alone.
fn is_standard(word: &[u8]) -> bool
    ensures { result ≡ is_standard word.now }
{
    word == b"-ansi".as_slice()
        || word == b"-pedantic".as_slice()
        || word == b"-pedantic-errors".as_slice()
}

/// Whether a word is another of those that are passed on.
fn is_general(word: &[u8]) -> bool
    ensures { result ≡ is_general word.now }
{
    word == b"-w".as_slice() || word == b"-pipe".as_slice() || word == b"-pthread".as_slice()
}

/// Whether a word is passed on to the compiler.
#[tactic(auto, unfolding(crate::specs::WordClass::is_passed_on))]
fn is_passed_on(word: &[u8]) -> bool
    ensures { result ≡ is_passed_on word.now }
{
    if is_for_a_part(word) {
        return false;
    }
    if word == b"-fsyntax-only".as_slice() {
        return false;
    }
    if is_optimization(word) {
        return true;
    }
    if is_language(word) {
        return true;
    }
    is_standard(word) || is_general(word)
}

/// What a word is that is no stop and begins with no option that takes a value.
fn other_class(word: &[u8]) -> WordClass
    ensures { result ≡ other_class word.now }
{
    if is_passed_on(word) {
        return WordClass::PassedOn;
    }
    if word.starts_with(b"-") {
        return WordClass::Unmodelled;
    }
    if word.starts_with(b"@") {
        return WordClass::Unmodelled;
    }
    WordClass::File
}

/// What a word is.
#[tactic(auto, unfolding(crate::specs::WordClass::class_of))]
pub(crate) fn class_of(word: &[u8]) -> WordClass
    ensures { result ≡ class_of word.now }
{
    if word == b"-E".as_slice() {
        return WordClass::StopAt(Stop::Preprocess);
    }
    if word == b"-S".as_slice() {
        return WordClass::StopAt(Stop::Compile);
    }
    if word == b"-c".as_slice() {
        return WordClass::StopAt(Stop::Assemble);
    }
    if word.starts_with(b"-o") {
        return WordClass::OutputOption;
    }
    if word.starts_with(b"-I") {
        return WordClass::ValueOption(Key::IncludeFolder);
    }
    if word.starts_with(b"-D") {
        return WordClass::ValueOption(Key::Define);
    }
    if word.starts_with(b"-U") {
        return WordClass::ValueOption(Key::Undefine);
    }
    if word.starts_with(b"-L") {
        return WordClass::ValueOption(Key::LibraryFolder);
    }
    if word.starts_with(b"-l") {
        return WordClass::ValueOption(Key::LibraryName);
    }
    other_class(word)
}
