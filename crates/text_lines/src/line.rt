//! Lines.

ghost use Rattle.std.specs.Prelude.{◌≡◌, ◌<◌, ◌∷◌, [], length, MatchOption};
ghost use Rattle.text_lines.specs.Lines.{lines_of};

/// The first line of a text, without its line feed, and what comes after it. None where the text is empty.
pub fn next_line(text: &[u8]) -> Option<(&[u8], &[u8])>
    ensures { MatchOption result (text.now ≡ [])
        (λ cut. (lines_of text.now ≡ cut.0.now ∷ lines_of cut.1.now) × (length cut.1.now < length text.now)) }
{
    for (i, byte) in text.iter().enumerate() {
        if *byte == b'\n' {
            return Some((&text[..i], &text[i + 1..]));
        }
    }
    if text.is_empty() {
        return None;
    }
    Some((text, &[]))
}
