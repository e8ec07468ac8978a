//! Lines: what stands between two LF.
ghost use Rattle.std.specs.Prelude.{◌≡◌, ◌+◌, ◌<◌, ◌≤◌, ◌∷◌, length, drop, slice_range};
ghost use Rattle.std.specs.List.{position_or_len, list_all};
ghost use Rattle.deck_lexer.specs.Lines.{lines_of, ends_line};
ghost use Rattle.deck_lexer.specs.Cards.{begins_with};
ghost use Rattle.deck_lexer.specs.Reading.{is_allowed};

// How many bytes stand before the first LF, or in the whole text where it has none.
fn line_len(text: &[u8]) -> usize
    ensures place { result ≡ position_or_len ends_line text.now }
    ensures within { result ≤ length text.now }
{
    for (i, &byte) in text.iter().enumerate() {
        if byte == b'\n' {
            return i;
        }
    }
    text.len()
}

/// The place after the line that begins at `start`, before its LF.
pub(crate) fn line_end(text: &[u8], start: usize) -> usize
    requires { start < length text.now }
    ensures order { start ≤ result }
    ensures within { result ≤ length text.now }
    ensures line { lines_of (drop start text.now)
        ≡ slice_range text.now start result ∷ lines_of (drop (result + 1) text.now) }
{
    start + line_len(&text[start..])
}

/// Whether the first byte of a line is this one.
pub fn begins_with(line: &[u8], byte: u8) -> bool
    ensures { result ≡ begins_with byte line.now }
{
    match line {
        [first, ..] => *first == byte,
        [] => false,
    }
}

// Whether a deck may have this byte.
fn is_allowed(byte: u8) -> bool
    ensures { result ≡ is_allowed byte }
{
    matches!(byte, b' '..=127 | b'\t' | b'\r')
}

/// Whether each byte of a line is one that a deck may have.
pub fn is_ascii(line: &[u8]) -> bool
    ensures { result ≡ list_all is_allowed line.now }
{
    line.iter().all(|byte| is_allowed(*byte))
}
