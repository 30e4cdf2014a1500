//! Directives: lines whose first byte that isn't a blank is `#`.

ghost use Rattle.std.specs.Prelude.{◌≡◌, bytes_eq};
ghost use Rattle.std.specs.Option.{option_map, option_copied};
ghost use Rattle.text_lines.specs.Blanks.{at_blank};
ghost use Rattle.tool_text.specs.Directive as line;
ghost use Rattle.tool_text.specs.Directive.{closed_by, identifier_in, definition_in, is_all_blank, directive_of};
ghost use Rattle.tool_text.specs.Seen.{target_seen, seen};

use crate::prefixes::{split_letters, split_word};
use object_name::read_number;
use text_lines::{is_blank, skip_blanks, split_at_byte, strip_prefix, trim_blanks};
use thunk_codec::is_identifier;

/// The file that an include line asks for.
#[derive(Clone, Copy, Debug, Drop)]
pub enum Target<'a> {
    /// Between quotes: looked for from the folder of the including file on.
    Quoted(&'a [u8]),
    /// Between angle brackets: looked for in the include folders alone.
    Angled(&'a [u8]),
}

/// What a line says. A directive that isn't of its form has nothing, or false.
#[derive(Drop)]
pub(crate) enum Directive<'a> {
    Text,
    Empty,
    Include(Option<Target<'a>>),
    Define(Option<(&'a [u8], &'a [u8])>),
    Undef(Option<&'a [u8]>),
    Ifdef(Option<&'a [u8]>),
    Ifndef(Option<&'a [u8]>),
    If(Option<u64>),
    Else(bool),
    Endif(bool),
    Unknown,
}

/// The text before a closing byte, where it isn't empty.
fn closed_by(byte: u8, text: &[u8]) -> Option<&[u8]>
    ensures { option_copied result ≡ closed_by byte text.now }
{
    let (file, _) = split_at_byte(byte, text)?;
    if file.is_empty() {
        return None;
    }
    Some(file)
}

/// `"F"` or `<F>`.
fn target_of(text: &[u8]) -> Option<Target<'_>>
    ensures { option_map target_seen result ≡ line.target_of text.now }
{
    let (first, rest) = text.split_first()?;
    match *first {
        b'"' => Some(Target::Quoted(closed_by(b'"', rest)?)),
        b'<' => Some(Target::Angled(closed_by(b'>', rest)?)),
        _ => None,
    }
}

/// One identifier and blanks.
fn identifier_in(text: &[u8]) -> Option<&[u8]>
    ensures { option_copied result ≡ identifier_in text.now }
{
    let name = trim_blanks(text);
    if !is_identifier(name) {
        return None;
    }
    Some(name)
}

/// Whether a text is at its end or begins with a blank.
fn at_blank(text: &[u8]) -> bool
    ensures { result ≡ at_blank text.now }
{
    match text {
        [] => true,
        [first, ..] => is_blank(*first),
    }
}

/// An identifier and what it stands for.
fn definition_in(text: &[u8]) -> Option<(&[u8], &[u8])>
    ensures { option_map (λ macro. (macro.0.now, macro.1.now)) result ≡ definition_in text.now }
{
    let (name, rest) = split_word(text);
    if !is_identifier(name) {
        return None;
    }
    if !at_blank(rest) {
        return None;
    }
    Some((name, trim_blanks(rest)))
}

/// Whether there is nothing but blanks.
fn is_all_blank(text: &[u8]) -> bool
    ensures { result ≡ is_all_blank text.now }
{
    skip_blanks(text).is_empty()
}

/// The directive of a word and of what comes after it.
#[tactic(auto, unfolding(crate::specs::Directive::worded))]
fn worded<'a>(word: &[u8], rest: &'a [u8]) -> Directive<'a>
    ensures { seen result ≡ line.worded word.now rest.now }
{
    if word == b"include".as_slice() {
        return Directive::Include(target_of(skip_blanks(rest)));
    }
    if word == b"define".as_slice() {
        return Directive::Define(definition_in(skip_blanks(rest)));
    }
    if word == b"undef".as_slice() {
        return Directive::Undef(identifier_in(rest));
    }
    if word == b"ifdef".as_slice() {
        return Directive::Ifdef(identifier_in(rest));
    }
    if word == b"ifndef".as_slice() {
        return Directive::Ifndef(identifier_in(rest));
    }
    if word == b"if".as_slice() {
        return Directive::If(read_number(trim_blanks(rest)));
    }
    if word == b"else".as_slice() {
        return Directive::Else(is_all_blank(rest));
    }
    if word == b"endif".as_slice() {
        return Directive::Endif(is_all_blank(rest));
    }
    Directive::Unknown
}

/// The directive of what comes after `#` and blanks.
#[tactic(auto, unfolding(crate::specs::Directive::marked))]
fn marked(text: &[u8]) -> Directive<'_>
    ensures { seen result ≡ line.marked text.now }
{
    if text.is_empty() {
        return Directive::Empty;
    }
    let (word, rest) = split_letters(text);
    worded(word, rest)
}

/// What a line says.
#[tactic(auto, unfolding(crate::specs::Directive::directive))]
pub(crate) fn directive_of(text: &[u8]) -> Directive<'_>
    ensures { seen result ≡ directive_of text.now }
{
    match strip_prefix(b"#", skip_blanks(text)) {
        Some(rest) => marked(skip_blanks(rest)),
        None => Directive::Text,
    }
}
