//! The reader of a whole text.

ghost use Rattle.std.specs.Prelude.{◌≡◌, ◌<◌, ◌^◌, length, IfOk};
ghost use Rattle.deck_reader.specs.Reading.{Reads, title_of, deck_in};

use crate::cards::read_cards;
use crate::whole::whole;
use crate::why::DeckRefusal;
use deck_cards::Deck;
use semantics::Title;
use std::alloc::{AllocError, Global};

/// What stands before the first LF of a text.
fn first_line(alloc: Global, text: &[u8]) -> Result<Vec<u8>, AllocError>
    ensures { IfOk result (λ line. line.items ≡ title_of text.now) }
{
    text.iter()
        .copied()
        .take_while(|byte| *byte != b'\n')
        .collect(alloc)
}

/// Reads the text of a deck.
///
/// It asks that the text has fewer than 2^32 bytes.
///
/// # Errors
///
/// The first fault of the text, with the line that it is told at. First come the faults of lines and
/// of single cards, the least line first: `NotAscii` and `ContinuesNothing` of a line, and for a card
/// the first that holds of `Unsupported`, `WrongWords`, `BadNumber`, `TimesNotRising`,
/// `TooManyThresholds`, `NotRising`, `WrongCount`, `DuplicateName`, `DuplicateModel`, `SecondTran`,
/// `NotGrounded`, `TwoDrivers` and `Limit`. Where no line ends the deck, `NoEnd` has the number of
/// lines. Then come the faults of the whole deck: `NoTran` at the line that ends it, `NoSuchModel` at
/// that of the device, and `Uncapped`, `NoInitial` and the `Limit` of a node's capacitance and of its
/// terminals at that of the first card that has the node at an end. `Memory` has line 0.
#[tactic(auto, unfolding(crate::specs::Reading::deck_in))]
pub fn read(alloc: Global, text: &[u8]) -> Result<Deck, DeckRefusal>
    requires { length text.now < 2 ^ 32 }
    ensures { Reads result (deck_in text.now) }
{
    let title = Title::of(first_line(alloc, text)?);
    let (told, end) = read_cards(alloc, text)?;
    whole(alloc, text, title, told, end)
}
