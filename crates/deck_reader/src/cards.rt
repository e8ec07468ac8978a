//! What the cards of a text say.

ghost use Rattle.std.specs.Prelude.{◌≡◌, ◌<◌, ◌^◌, length};
ghost use Rattle.deck_reader.specs.Told.{with_words};
ghost use Rattle.deck_reader.specs.Reading.{Reads, at_line, lexer_refusal, told_in};

use crate::told::Told;
use crate::why::{DeckRefusal, DeckWhy};
use deck_lexer::{CardLine, LexFault, Lexer, Next};
use std::alloc::Global;

/// What one more card makes of what is told, or its first fault at its line.
fn with_card(told: Told, alloc: Global, card: &CardLine) -> Result<Told, DeckRefusal>
    ensures { Reads result (at_line card.now.line (with_words told card.now.line card.now.words)) }
{
    match told.with_card(alloc, card) {
        Ok(next) => Ok(next),
        Err(DeckWhy::Memory) => Err(DeckRefusal {
            line: 0,
            why: DeckWhy::Memory,
        }),
        Err(why) => Err(DeckRefusal {
            line: card.line(),
            why,
        }),
    }
}

/// The refusal of a fault of the lines.
fn lexer_refusal(fault: LexFault) -> DeckRefusal
    ensures { result ≡ lexer_refusal fault }
{
    match fault {
        LexFault::NotAscii(line) => DeckRefusal {
            line,
            why: DeckWhy::NotAscii,
        },
        LexFault::ContinuesNothing(line) => DeckRefusal {
            line,
            why: DeckWhy::ContinuesNothing,
        },
        LexFault::NoEnd(line) => DeckRefusal {
            line,
            why: DeckWhy::NoEnd,
        },
    }
}

/// What the cards of a text say and the line that ends the deck, or the first fault of a card or line.
#[tactic(auto, unfolding(crate::specs::Reading::told_in, crate::specs::Reading::told_after))]
pub fn read_cards(alloc: Global, text: &[u8]) -> Result<(Told, u32), DeckRefusal>
    requires { length text.now < 2 ^ 32 }
    ensures { Reads result (told_in text.now) }
{
    let mut lexer = Lexer::of(text);
    let mut told = Told::new(alloc);
    loop {
        match lexer.next(alloc)? {
            Next::Card(card) => told = with_card(told, alloc, &card)?,
            Next::Over(Err(fault)) => return Err(lexer_refusal(fault)),
            Next::Over(Ok(end)) => return Ok((told, end)),
        }
    }
}
