//! What the types of a deck and of an edit say where the deck has nothing against the edit.

ghost use Rattle.std.specs.Prelude.{◌≡◌, true, None};
ghost use Rattle.deck_cards.specs.Edits.{edit_cause, edit_rises, element_rises, has_rising};
ghost use Rattle.edit_laws.specs.Accepted.{IsAccepted};

use deck_cards::{Deck, Edit};
use semantics::{Element, Wave};

/// That a deck accepts an edit that it has nothing against: the deck is valid, and a source that the edit brings has
/// rising times.
pub fn know_accepted(deck: &Deck, edit: &Edit)
    ensures { edit_cause deck.now edit.now ≡ None → IsAccepted deck.now edit.now }
{
    deck.stop();
    know_rising(edit);
}

/// That a source that an edit brings has rising times.
fn know_rising(edit: &Edit)
    ensures { edit_rises edit.now ≡ true }
{
    match edit {
        Edit::SetWave { wave, .. } => know_points(wave),
        Edit::Add(element) => know_element(element),
        Edit::SetR { .. } => {}
        Edit::SetC { .. } => {}
        Edit::SetModel { .. } => {}
        Edit::SetIc { .. } => {}
        Edit::Remove(_) => {}
    }
}

/// That an element has rising times, where it is a source.
fn know_element(element: &Element)
    ensures { element_rises element.now ≡ true }
{
    match element {
        Element::Source { wave, .. } => know_points(wave),
        Element::Resistor { .. } => {}
        Element::Capacitor { .. } => {}
        Element::Mos { .. } => {}
    }
}

/// That the voltage of a source has a point, and rising times.
fn know_points(wave: &Wave)
    ensures { has_rising wave.now ≡ true }
{
    wave.points();
}
