//! Words: spans of the text between separators.
ghost use Rattle.std.specs.Prelude.{◌≡◌, ℕ, ◌+◌, ◌<◌, ◌≤◌, ◌^◌, ◌++◌, length, map, take, slice_range, All, AllPairs, IfOk, OnOk};
ghost use Rattle.deck_lexer.specs.Words.{spelled, is_blank, is_separator, begins_comment, split_words, code_of, words_of, words_at, EndsBy, IsBefore, span_between};

use std::alloc::{AllocError, Global};

/// A word of a text: the `len` bytes from `start` on.
#[derive(Clone, Copy, Debug, PartialEq, Eq)]
pub struct Word {
    /// The place of its first byte in the text.
    pub start: u32,
    /// How many bytes it has, at least 1.
    pub len: u32,
}

/// The bytes of the text that a word stands for.
pub(crate) fn spelled(text: &[u8], word: Word) -> &[u8]
    requires { word.start + word.len ≤ length text.now }
    ensures { result.now ≡ spelled text.now word }
{
    let start = word.start as usize;
    &text[start..start + word.len as usize]
}

fn is_blank(byte: u8) -> bool
    ensures { result ≡ is_blank byte }
{
    matches!(byte, b' ' | b'\t' | b'\r')
}

fn is_separator(byte: u8) -> bool
    ensures { result ≡ is_separator byte }
{
    is_blank(byte) || matches!(byte, b',' | b'=' | b'(' | b')')
}

// `;` begins a comment anywhere, `$` only where it stands first or after a blank.
fn begins_comment(after_blank: bool, byte: u8) -> bool
    ensures { result ≡ begins_comment after_blank byte }
{
    byte == b';' || (byte == b'$' && after_blank)
}

/// The part of a line before its comment.
pub(crate) fn without_comment(line: &[u8]) -> &[u8]
    ensures code { result.now ≡ code_of line.now }
    ensures front { result.now ≡ take (length result.now) line.now }
{
    let mut after_blank = true;
    for (i, &byte) in line.iter().enumerate() {
        if begins_comment(after_blank, byte) {
            return &line[..i];
        }
        after_blank = is_blank(byte);
    }
    line
}

// Puts the span from `start` to `end` last, unless it is empty.
fn push_span(found: &mut Vec<Word>, start: usize, end: usize) -> Result<(), AllocError>
    requires order { start ≤ end }
    requires small { end < 2 ^ 32 }
    ensures { OnOk result (found.new.items ≡ found.old.items ++ span_between start end) }
{
    if start < end {
        found.push(Word {
            start: start as u32,
            len: (end - start) as u32,
        })?;
    }
    Ok(())
}

/// Puts the words of `text[from..to]`, in which nothing is a comment, last in `found`.
pub(crate) fn push_words(
    found: &mut Vec<Word>,
    text: &[u8],
    from: usize,
    to: usize,
) -> Result<(), AllocError>
    requires order { from ≤ to }
    requires within { to ≤ length text.now }
    requires small { length text.now < 2 ^ 32 }
    ensures words { OnOk result (words_at text.now found.new.items
        ≡ words_at text.now found.old.items ++ split_words (slice_range text.now from to)) }
    ensures few { OnOk result (length found.new.items + from ≤ length found.old.items + to) }
    ensures apart { AllPairs IsBefore found.old.items
        → All (λ word. word.start + word.len < from) found.old.items
        → OnOk result (AllPairs IsBefore found.new.items) }
    ensures spans { (end : ℕ) → to ≤ end → All (EndsBy end) found.old.items
        → OnOk result (All (EndsBy end) found.new.items) }
{
    let mut start = from;
    for at in from..to {
        if is_separator(text[at]) {
            push_span(found, start, at)?;
            start = at + 1;
        }
    }
    push_span(found, start, to)
}

/// The words of one line, in order, as spans of that line; a comment has none.
///
/// It asks that the line has fewer than 2^32 bytes, and fails only for want of memory.
pub fn words(alloc: Global, line: &[u8]) -> Result<Vec<Word>, AllocError>
    requires { length line.now < 2 ^ 32 }
    ensures words { IfOk result (λ found. words_at line.now found.items ≡ words_of line.now) }
    ensures few { IfOk result (λ found. length found.items ≤ length line.now) }
    ensures spans { IfOk result (λ found. All (EndsBy (length (code_of line.now))) found.items) }
    ensures order { IfOk result (λ found. AllPairs IsBefore found.items) }
{
    let mut found = Vec::new(alloc);
    push_words(&mut found, line, 0, without_comment(line).len())?;
    Ok(found)
}
