//! The lines of a text, one after another.
ghost use Rattle.std.specs.Prelude.{◌≡◌, ◌<◌, ◌^◌, [], ◌∷◌, length, IfSome, MatchOption};
ghost use Rattle.deck_lexer.specs.Lines.{numbered_lines};

use crate::line::line_end;
use std::marker::Model;

/// The lines of a text that are left to read, each with its number, from 1 on. A contract sees them as a list.
#[derive(Drop)]
pub struct Lines<'a> {
    text: &'a [u8],
    start: usize,
    number: u32,
}

impl<'a> Model for Lines<'a> {
    ghost use Rattle.std.specs.Prelude.{◌+◌, ◌<◌, ◌≤◌, ◌^◌, List, length, drop};
    ghost use Rattle.std.specs.List.{enumerate_from};
    ghost use Rattle.deck_lexer.specs.Lines.{Line, lines_of};

    ghost Value = { List Line };

    ghost view = { λ l. enumerate_from (l.number + 1) (lines_of (drop l.start l.text.now)) };

    ghost invariant = { λ l. (length l.text.now < 2 ^ 32) × (l.start ≤ length l.text.now + 1) × (l.number ≤ l.start) };
}

impl<'a> Lines<'a> {
    /// All lines of a text.
    ///
    /// It asks that the text has fewer than 2^32 bytes.
    pub fn of(text: &'a [u8]) -> Lines<'a>
        requires { length text.now < 2 ^ 32 }
        ensures { result ≡ numbered_lines text.now }
    {
        Lines {
            text,
            start: 0,
            number: 0,
        }
    }

    /// The next line and its number, which is then taken away; `None` where no line is left.
    pub fn next(&mut self) -> Option<(u32, &'a [u8])>
        ensures line { MatchOption result ((self.old ≡ []) × (self.new ≡ [])) (λ line. self.old ≡ (line.0, line.1.now) ∷ self.new) }
        ensures small { IfSome result (λ line. length line.1.now < 2 ^ 32) }
    {
        if self.start >= self.text.len() {
            return None;
        }
        let end = line_end(self.text, self.start);
        let line = &self.text[self.start..end];
        self.start = end + 1;
        self.number += 1;
        Some((self.number, line))
    }
}
