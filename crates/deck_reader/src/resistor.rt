ghost use Rattle.deck_reader.specs.Numbers.{Gives};
ghost use Rattle.deck_reader.specs.Elements.{resistor};

use crate::number::number;
use crate::why::DeckWhy;
use crate::words::{Words, node_of};
use semantics::Element;
use spice_num::Unit;
use std::alloc::Global;

/// The card `rNAME NODE NODE OHMS`.
#[tactic(auto, unfolding(crate::specs::Elements::resistor))]
pub fn resistor(alloc: Global, words: &mut Words<'_>) -> Result<Element, DeckWhy>
    ensures { Gives result (resistor words.old) }
{
    let name = words.next().ok_or(DeckWhy::WrongWords)?;
    let first = words.next().ok_or(DeckWhy::WrongWords)?;
    let second = words.next().ok_or(DeckWhy::WrongWords)?;
    let value = words.next().ok_or(DeckWhy::WrongWords)?;
    if words.len() != 0 {
        return Err(DeckWhy::WrongWords);
    }
    let ohms = number(alloc, &value, Unit::Ohm)?;
    Ok(Element::Resistor {
        name: name.to_name(alloc)?,
        first: node_of(alloc, &first)?,
        second: node_of(alloc, &second)?,
        ohms,
    })
}
