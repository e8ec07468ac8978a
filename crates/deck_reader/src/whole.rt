//! The faults of a deck as a whole.

ghost use Rattle.std.specs.Prelude.{◌≡◌, ◌<◌, ◌^◌, ℕ, length, Ok, IfOk};
ghost use Rattle.semantics.specs.Deck.{first_some};
ghost use Rattle.deck_cards.specs.Causes.{deck_cause};
ghost use Rattle.deck_cards.specs.Settled.{settled};
ghost use Rattle.deck_reader.specs.declared.told.Told.{Told};
ghost use Rattle.deck_reader.specs.Reading.{Reads, missing_part, no_such_model, told_deck, told_in, node_cause, sound, whole};
ghost use Rattle.deck_reader.specs.Circuit.{line_of};
ghost use Rattle.deck_reader.specs.Sound.{Tells};

use crate::cards::read_cards;
use crate::index::has_end;
use crate::parts::Parts;
use crate::placed::Placed;
use crate::told::Told;
use crate::why::{DeckRefusal, DeckWhy};
use deck_cards::{Deck, DeckParts, EditRefusal};
use semantics::{Element, Name, Title};
use std::alloc::{AllocError, Global};

/// The element, where it is a device whose part is not defined.
fn missing_part(
    parts: &Parts,
    line: u32,
    element: &Element,
) -> Result<Option<DeckRefusal>, AllocError>
    ensures { IfOk result (λ found. found ≡ missing_part parts.now (line, element.now)) }
{
    match element {
        Element::Mos { part, .. } => {
            if parts.has(part) {
                return Ok(None);
            }
            Ok(Some(DeckRefusal {
                line,
                why: DeckWhy::NoSuchModel(part.copy()?),
            }))
        }
        Element::Resistor { .. } => Ok(None),
        Element::Capacitor { .. } => Ok(None),
        Element::Source { .. } => Ok(None),
    }
}

/// The first of these elements that is a device whose part is not defined.
fn first_missing(placed: &Placed, parts: &Parts) -> Result<Option<DeckRefusal>, AllocError>
    ensures { IfOk result (λ found. found ≡ first_some (missing_part parts.now) placed.now) }
{
    for place in 0..placed.len() {
        let (line, element) = placed.at(place);
        if let Some(refusal) = missing_part(parts, line, element)? {
            return Ok(Some(refusal));
        }
    }
    Ok(None)
}

/// The line of the first card that has this node at an end; 0 where none has.
#[tactic(auto, unfolding(crate::specs::Circuit::line_of))]
fn line_of(placed: &Placed, node: &Name) -> u32
    ensures { result ≡ line_of placed.now node.now }
{
    for place in 0..placed.len() {
        let (line, element) = placed.at(place);
        if has_end(element, node) {
            return line;
        }
    }
    0
}

/// The refusal of a cause that is of a node, at the line of the first card that has the node at an
/// end.
fn node_refusal(placed: &Placed, cause: EditRefusal) -> DeckRefusal
    ensures { Tells result (line_of placed.now) cause }
{
    match cause {
        EditRefusal::Uncapped(node) => DeckRefusal {
            line: line_of(placed, &node),
            why: DeckWhy::Uncapped(node),
        },
        EditRefusal::NoInitial(node) => DeckRefusal {
            line: line_of(placed, &node),
            why: DeckWhy::NoInitial(node),
        },
        EditRefusal::Limit(which, node) => DeckRefusal {
            line: line_of(placed, &node),
            why: DeckWhy::Limit(which, node),
        },
        _ => DeckRefusal {
            line: 0,
            why: DeckWhy::Memory,
        },
    }
}

/// The refusal of a cause that is of a node of the deck of this text. The cards are read again to find
/// the line, so that a deck that is not refused needs no table of lines.
fn refusal_in(alloc: Global, text: &[u8], cause: EditRefusal) -> DeckRefusal
    requires { length text.now < 2 ^ 32 }
    ensures { (told : Told) (end : ℕ) → told_in text.now ≡ Ok (told, end) → Tells result (line_of told.circuit) cause }
{
    match read_cards(alloc, text) {
        Ok((told, _)) => node_refusal(told.circuit.placed(), cause),
        Err(refusal) => refusal,
    }
}

/// The deck of these parts, which the text says, or the first fault of its nodes.
#[tactic(auto, unfolding(crate::specs::Reading::sound))]
fn sound(alloc: Global, text: &[u8], parts: DeckParts) -> Result<Deck, DeckRefusal>
    requires short { length text.now < 2 ^ 32 }
    requires nodes_alone { deck_cause (settled parts) ≡ node_cause (settled parts) }
    ensures { (told : Told) (end : ℕ) → told_in text.now ≡ Ok (told, end) → Reads result (sound (line_of told.circuit) (settled parts)) }
{
    match Deck::of(alloc, parts) {
        Ok(deck) => Ok(deck),
        Err(cause) => Err(refusal_in(alloc, text, cause)),
    }
}

/// The first device whose part is not defined.
#[tactic(auto, unfolding(crate::specs::Reading::no_such_model))]
fn no_such_model(told: &Told) -> Result<Option<DeckRefusal>, AllocError>
    ensures { IfOk result (λ found. found ≡ no_such_model told.now) }
{
    first_missing(told.circuit.placed(), &told.parts)
}

/// What the deck is made of that is told.
#[tactic(auto, unfolding(crate::specs::Reading::told_deck))]
fn parts_of(
    alloc: Global,
    title: Title,
    span: (u64, bool),
    told: Told,
) -> Result<DeckParts, AllocError>
    ensures { IfOk result (λ parts. parts ≡ told_deck title told span) }
{
    Ok(DeckParts {
        title,
        stop: span.0,
        uic: span.1,
        grain: told.grain,
        parts: told.parts.into_parts(alloc)?,
        initial: told.initial.into_pairs(alloc)?,
        elements: told.circuit.into_elements(),
    })
}

/// The deck that the text says, in which no part is missing, or the first fault of its nodes.
fn with_nodes(
    alloc: Global,
    text: &[u8],
    title: Title,
    span: (u64, bool),
    told: Told,
) -> Result<Deck, DeckRefusal>
    requires short { length text.now < 2 ^ 32 }
    requires once { settled (told_deck title told span) ≡ told_deck title told span }
    requires nodes_alone { deck_cause (told_deck title told span) ≡ node_cause (told_deck title told span) }
    ensures { (end : ℕ) → told_in text.now ≡ Ok (told, end) → Reads result (sound (line_of told.circuit) (told_deck title told span)) }
{
    let parts = parts_of(alloc, title, span, told)?;
    sound(alloc, text, parts)
}

/// The deck that the text says, of which this is told and which ends at this line, or its first fault
/// as a whole.
#[tactic(auto, unfolding(crate::specs::Reading::whole))]
pub fn whole(
    alloc: Global,
    text: &[u8],
    title: Title,
    told: Told,
    end: u32,
) -> Result<Deck, DeckRefusal>
    requires short { length text.now < 2 ^ 32 }
    requires said { told_in text.now ≡ Ok (told, end) }
    ensures { Reads result (whole title end told) }
{
    let Some(span) = told.span else {
        return Err(DeckRefusal {
            line: end,
            why: DeckWhy::NoTran,
        });
    };
    match no_such_model(&told)? {
        Some(refusal) => Err(refusal),
        None => with_nodes(alloc, text, title, span, told),
    }
}
