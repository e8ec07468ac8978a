//! A card of a deck, and the list of cards.
ghost use Rattle.std.specs.Prelude.{◌≡◌, ◌<◌, ◌^◌, Some, length, slice_get, All, IfOk};
ghost use Rattle.deck_lexer.specs.Words.{words_of, lowered};
ghost use Rattle.deck_lexer.specs.Draft.{draft_card, IsDraft};

use crate::draft::Draft;
use crate::word::{spelled, without_comment};
use std::alloc::{AllocError, Global};
use std::marker::Model;

/// A card: the number of its line, and its words in lower case.
#[derive(Drop)]
pub struct CardLine {
    draft: Draft,
}

impl Model for CardLine {
    ghost use Rattle.deck_lexer.specs.Cards.{Card};
    ghost use Rattle.deck_lexer.specs.Draft.{draft_card, IsDraft};

    ghost Value = { Card };

    ghost view = { λ c. draft_card c.draft };

    ghost invariant = { λ c. IsDraft c.draft };
}

impl CardLine {
    /// The card of this line whose words are those of a text.
    ///
    /// It asks that the text has fewer than 2^32 bytes, each below 128, and fails only for want of memory.
    pub fn of(alloc: Global, line: u32, text: &[u8]) -> Result<CardLine, AllocError>
        requires small { length text.now < 2 ^ 32 }
        requires ascii { All (λ b. b < 128) text.now }
        ensures line { IfOk result (λ card. card.line ≡ line) }
        ensures words { IfOk result (λ card. card.words ≡ words_of text.now) }
    {
        let draft = Draft::of(alloc, line, without_comment(text))?;
        Ok(CardLine { draft })
    }

    // The card of which this is all.
    pub(crate) fn of_draft(draft: Draft) -> CardLine
        requires { IsDraft draft }
        ensures { result ≡ draft_card draft }
    {
        CardLine { draft }
    }

    /// The number of its line, from 1 on: where its first word stands.
    pub fn line(&self) -> u32
        ensures { result ≡ self.now.line }
    {
        self.draft.line
    }

    /// How many words it has.
    pub fn len(&self) -> usize
        ensures { result ≡ length self.now.words }
    {
        self.draft.words.len()
    }

    /// Its word at `i`, in lower case; it asks that there is one.
    pub fn word(&self, i: usize) -> &[u8]
        requires { i < length self.now.words }
        ensures word { slice_get self.now.words i ≡ Some result.now }
        ensures some { 0 < length result.now }
        ensures ascii { All (λ b. b < 128) result.now }
        ensures lower { lowered result.now ≡ result.now }
    {
        spelled(&self.draft.text, self.draft.words[i])
    }
}

/// The cards of a deck, in the order of their lines.
#[derive(Drop)]
pub struct Cards {
    cards: Vec<CardLine>,
}

impl Model for Cards {
    ghost use Rattle.std.specs.Prelude.{List};
    ghost use Rattle.deck_lexer.specs.Cards.{Card};

    ghost Value = { List Card };

    ghost view = { λ c. c.cards.items };
}

impl Cards {
    /// The list of these cards.
    pub fn of(cards: Vec<CardLine>) -> Cards
        ensures { result ≡ cards.items }
    {
        Cards { cards }
    }

    /// All the cards, in order.
    pub fn all(&self) -> &[CardLine]
        ensures { result.now ≡ self.now }
    {
        &self.cards
    }
}
