//! The reading of a whole deck.
ghost use Rattle.std.specs.Prelude.{◌≡◌, ◌<◌, ◌^◌, None, length, All, IfOk, OnOk};
ghost use Rattle.deck_lexer.specs.Left.{Hands};
ghost use Rattle.deck_lexer.specs.Reading.{deck_cards, deck_end, deck_fault};
ghost use Rattle.deck_lexer.specs.Scan.{scan_left, IsScan};

use crate::card_line::{CardLine, Cards};
use crate::fault::LexFault;
use crate::pending::Pending;
use crate::scan::Scan;
use std::alloc::{AllocError, Global};
use std::marker::Model;

/// What a deck has next.
#[derive(Drop)]
pub enum Next {
    /// This card.
    Card(CardLine),
    /// No card: the number of the line that ends the deck, or what is wrong with its text.
    Over(Result<u32, LexFault>),
}

/// Reads the text of a deck card by card, from its first line to the first that is at fault or ends it. A contract sees
/// what is left of the deck.
#[derive(Drop)]
pub struct Lexer<'a> {
    text: &'a [u8],
    scan: Scan,
}

impl<'a> Model for Lexer<'a> {
    ghost use Rattle.deck_lexer.specs.Left.{Left};
    ghost use Rattle.deck_lexer.specs.Scan.{scan_left, IsScan};

    ghost Value = { Left };

    ghost view = { λ l. scan_left l.text.now l.scan };

    ghost invariant = { λ l. IsScan l.text.now l.scan };
}

impl<'a> Lexer<'a> {
    /// At the beginning of a text.
    ///
    /// It asks that the text has fewer than 2^32 bytes.
    pub fn of(text: &'a [u8]) -> Lexer<'a>
        requires { length text.now < 2 ^ 32 }
        ensures cards { result.cards ≡ deck_cards text.now }
        ensures end { result.end ≡ deck_end text.now }
        ensures fault { result.fault ≡ deck_fault text.now }
    {
        Lexer {
            text,
            scan: Scan {
                start: 0,
                number: 0,
                pending: Pending {
                    whole: None,
                    last: None,
                },
                over: None,
            },
        }
    }

    /// The next card or, behind the last, how the deck ends.
    ///
    /// It fails only for want of memory, and may then have lost a card.
    pub fn next(&mut self, alloc: Global) -> Result<Next, AllocError>
        ensures { IfOk result (λ next. Hands self.old next self.new) }
    {
        self.scan.next(alloc, self.text)
    }
}

/// The cards of a deck, the line that ends it, and what is wrong with it.
#[derive(Drop)]
pub struct Lexed {
    /// The cards, without the line that ends the deck; where a line is at fault, those before it.
    pub cards: Cards,
    /// The number of the line that ends the deck; 0 where there is a fault.
    pub end: u32,
    /// The first line at fault, or that no line ends the deck.
    pub fault: Option<LexFault>,
}

/// Reads the text of a deck, from its first line to the first that is at fault or ends it.
///
/// It asks that the text has fewer than 2^32 bytes, and fails only for want of memory.
pub fn cards(alloc: Global, text: &[u8]) -> Result<Lexed, AllocError>
    requires { length text.now < 2 ^ 32 }
    ensures cards { IfOk result (λ lexed. lexed.cards ≡ deck_cards text.now) }
    ensures end { IfOk result (λ lexed. lexed.end ≡ deck_end text.now) }
    ensures fault { IfOk result (λ lexed. lexed.fault ≡ deck_fault text.now) }
{
    let mut lexer = Lexer::of(text);
    let mut cards = Vec::new(alloc);
    loop {
        match lexer.next(alloc)? {
            Next::Card(card) => cards.push(card)?,
            Next::Over(Ok(end)) => {
                return Ok(Lexed {
                    cards: Cards::of(cards),
                    end,
                    fault: None,
                });
            }
            Next::Over(Err(fault)) => {
                return Ok(Lexed {
                    cards: Cards::of(cards),
                    end: 0,
                    fault: Some(fault),
                });
            }
        }
    }
}

#[cfg(test)]
mod tests;
