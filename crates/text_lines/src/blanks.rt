//! Blanks and words.

ghost use Rattle.std.specs.Prelude.{◌≡◌, ◌<◌, ◌∷◌, [], false, length, MatchOption};
ghost use Rattle.text_lines.specs.Blanks.{is_blank, at_blank, skip_blanks, trimmed, without_end, words_of};

/// A space or a tab.
pub fn is_blank(byte: u8) -> bool
    ensures { result ≡ is_blank byte }
{
    byte == b' ' || byte == b'\t'
}

/// What comes after the blanks at the beginning.
pub fn skip_blanks(text: &[u8]) -> &[u8]
    ensures { result.now ≡ skip_blanks text.now }
{
    let mut rest = text;
    'blanks: while let Some((first, after)) = rest.split_first() {
        if !is_blank(*first) {
            return rest;
        }
        rest = after;
    }
    rest
}

/// A text without the blanks at its end.
fn without_end(text: &[u8]) -> &[u8]
    ensures { result.now ≡ without_end text.now }
{
    let mut rest = text;
    'blanks: while let Some((last, before)) = rest.split_last() {
        if !is_blank(*last) {
            return rest;
        }
        rest = before;
    }
    rest
}

/// A text without the blanks at both ends.
pub fn trim_blanks(text: &[u8]) -> &[u8]
    ensures { result.now ≡ trimmed text.now }
{
    without_end(skip_blanks(text))
}

/// The word at the beginning, and what comes after it.
fn first_word(text: &[u8]) -> (&[u8], &[u8])
    requires { at_blank text.now ≡ false }
    ensures words { words_of text.now ≡ result.0.now ∷ words_of result.1.now }
    ensures shorter { length result.1.now < length text.now }
{
    for (i, byte) in text.iter().enumerate() {
        if is_blank(*byte) {
            return (&text[..i], &text[i..]);
        }
    }
    (text, &[])
}

/// The first word of a line, and what comes after it. None where the line has no word.
pub fn next_word(line: &[u8]) -> Option<(&[u8], &[u8])>
    ensures { MatchOption result (words_of line.now ≡ [])
        (λ cut. (words_of line.now ≡ cut.0.now ∷ words_of cut.1.now) × (length cut.1.now < length line.now)) }
{
    let text = skip_blanks(line);
    if text.is_empty() {
        return None;
    }
    Some(first_word(text))
}
