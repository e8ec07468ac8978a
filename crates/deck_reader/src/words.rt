//! The words of a card, one behind the other.

ghost use Rattle.std.specs.Prelude.{◌≡◌, ◌+◌, ◌-◌, ◌^◌, ◌<◌, ◌≤◌, [], ◌∷◌, length, drop, take, slice_get, MatchOption, IfOk, IfSome};
ghost use Rattle.std.specs.Str.{bytes_eq};
ghost use Rattle.deck_lexer.specs.Cards.{begins_with};
ghost use Rattle.deck_reader.specs.Words.{node, place_of};

use deck_lexer::CardLine;
use semantics::Name;
use std::alloc::{AllocError, Global};
use std::marker::Model;

/// A word of a card, in lower case. A contract sees it as its bytes.
#[derive(Drop)]
pub struct Word<'a> {
    text: &'a [u8],
}

impl<'a> Model for Word<'a> {
    ghost use Rattle.std.specs.Prelude.{◌≡◌, ℕ, List, map};
    ghost use Rattle.std.specs.Char.{to_ascii_lowercase};
    ghost use Rattle.std.specs.Str.{IsAscii};

    ghost Value = { List ℕ };

    ghost view = { λ w. w.text.now };

    ghost invariant = { λ w. IsAscii w.text.now × (map to_ascii_lowercase w.text.now ≡ w.text.now) };
}

impl<'a> Word<'a> {
    /// Its bytes.
    pub fn text(&self) -> &'a [u8]
        ensures { result.now ≡ self.now }
    {
        self.text
    }

    /// Whether these are its bytes.
    pub fn is(&self, text: &str) -> bool
        ensures { result ≡ bytes_eq self.now text.now }
    {
        self.text == text.as_bytes()
    }

    /// Whether this is its first letter.
    pub fn begins_with(&self, letter: u8) -> bool
        ensures { result ≡ begins_with letter self.now }
    {
        match self.text {
            [first, ..] => *first == letter,
            [] => false,
        }
    }

    /// A name of its own with these bytes.
    pub fn to_name(&self, alloc: Global) -> Result<Name, AllocError>
        ensures { IfOk result (λ name. name ≡ self.now) }
    {
        Name::of(alloc, self.text)
    }
}

/// A run of the words of a card. A contract sees it as the words that are left.
#[derive(Drop)]
pub struct Words<'a> {
    card: &'a CardLine,
    at: usize,
    end: usize,
}

impl<'a> Model for Words<'a> {
    ghost use Rattle.std.specs.Prelude.{◌≤◌, ℕ, List, drop, take, length};

    ghost Value = { List (List ℕ) };

    ghost view = { λ w. drop w.at (take w.end w.card.now.words) };

    ghost invariant = { λ w. (w.at ≤ w.end) × (w.end ≤ length w.card.now.words) };
}

impl<'a> Words<'a> {
    /// The words of the card from this place on.
    pub fn of(card: &'a CardLine, from: usize) -> Words<'a>
        ensures { result ≡ drop from card.now.words }
    {
        let end = card.len();
        Words {
            card,
            at: from.min(end),
            end,
        }
    }

    /// The same words.
    pub fn copy(&self) -> Words<'a>
        ensures { result ≡ self.now }
    {
        Words {
            card: self.card,
            at: self.at,
            end: self.end,
        }
    }

    /// How many words are left.
    pub fn len(&self) -> usize
        ensures { result ≡ length self.now }
    {
        self.end - self.at
    }

    /// The word at this place among those that are left.
    pub fn get(&self, place: usize) -> Option<Word<'a>>
        ensures { result ≡ slice_get self.now place }
    {
        if place >= self.len() {
            return None;
        }
        Some(Word {
            text: self.card.word(self.at + place),
        })
    }

    /// The first word that is left, which is then taken away; `None` where none is left.
    pub fn next(&mut self) -> Option<Word<'a>>
        ensures { MatchOption result ((self.old ≡ []) × (self.new ≡ [])) (λ word. self.old ≡ word ∷ self.new) }
    {
        if self.at >= self.end {
            return None;
        }
        let text = self.card.word(self.at);
        self.at += 1;
        Some(Word { text })
    }

    /// The first `count` of the words that are left.
    pub fn front(&self, count: usize) -> Words<'a>
        requires { count ≤ length self.now }
        ensures { result ≡ take count self.now }
    {
        Words {
            card: self.card,
            at: self.at,
            end: self.at + count,
        }
    }

    /// The words behind the first `count` of those that are left.
    pub fn behind(&self, count: usize) -> Words<'a>
        requires { count ≤ length self.now }
        ensures { result ≡ drop count self.now }
    {
        Words {
            card: self.card,
            at: self.at + count,
            end: self.end,
        }
    }

    /// The place of the first of the words that are left that is this one.
    pub fn find(&self, text: &str) -> Option<usize>
        ensures place { result ≡ place_of text.now self.now }
        ensures within { IfSome result (λ place. place < length self.now) }
        ensures room { IfSome result (λ place. place + 1 < 2 ^ 64) }
    {
        let mut words = self.copy();
        for place in 0..self.len() {
            if words.next()?.is(text) {
                return Some(place);
            }
        }
        None
    }
}

/// The node that a word names, where `gnd` is `0`.
pub fn node_of(alloc: Global, word: &Word<'_>) -> Result<Name, AllocError>
    ensures { IfOk result (λ name. name ≡ node word.now) }
{
    if word.is("gnd") {
        return Name::of(alloc, b"0");
    }
    word.to_name(alloc)
}
