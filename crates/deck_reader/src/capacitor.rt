ghost use Rattle.deck_reader.specs.Numbers.{Gives};
ghost use Rattle.deck_reader.specs.Elements.{capacitor};

use crate::number::number;
use crate::why::DeckWhy;
use crate::words::{Words, node_of};
use semantics::Element;
use spice_num::Unit;
use std::alloc::Global;

/// The card `cNAME NODE NODE FARADS`.
#[tactic(auto, unfolding(crate::specs::Elements::capacitor))]
pub fn capacitor(alloc: Global, words: &mut Words<'_>) -> Result<Element, DeckWhy>
    ensures { Gives result (capacitor words.old) }
{
    let name = words.next().ok_or(DeckWhy::WrongWords)?;
    let plus = words.next().ok_or(DeckWhy::WrongWords)?;
    let minus = words.next().ok_or(DeckWhy::WrongWords)?;
    let value = words.next().ok_or(DeckWhy::WrongWords)?;
    if words.len() != 0 {
        return Err(DeckWhy::WrongWords);
    }
    let farads = number(alloc, &value, Unit::Farad)?;
    Ok(Element::Capacitor {
        name: name.to_name(alloc)?,
        plus: node_of(alloc, &plus)?,
        minus: node_of(alloc, &minus)?,
        farads,
    })
}
