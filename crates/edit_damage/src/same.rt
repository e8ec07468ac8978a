ghost use Rattle.std.specs.Prelude.{◌≡◌, map, true};
ghost use Rattle.semantics.specs.Deck.{name_of};
ghost use Rattle.semantics.specs.Edit.{is_voltage_source};
ghost use Rattle.semantics.specs.Valid.{differ};
ghost use Rattle.edit_damage.specs.Same.{has_element, is_capacitor, is_mos_between, is_mos_of, is_resistor, is_source, same_element, same_wave};

use deck_cards::Deck;
use semantics::{Element, Name, Wave};

/// Whether two voltages of sources have the same points.
fn is_same_wave(wave: &Wave, other: &Wave) -> bool
    ensures { result ≡ same_wave wave.now other.now }
{
    wave.points() == other.points()
}

/// Whether an element is this resistor.
fn is_resistor(element: &Element, name: &Name, ends: (&Name, &Name), ohms: i64) -> bool
    ensures { result ≡ is_resistor name.now ends.entry.0.now ends.entry.1.now ohms element.now }
{
    match element {
        Element::Resistor {
            name: other,
            first,
            second,
            ohms: value,
        } => name == other && ends.0 == first && ends.1 == second && ohms == *value,
        Element::Capacitor { .. } => false,
        Element::Source { .. } => false,
        Element::Mos { .. } => false,
    }
}

/// Whether an element is this capacitor.
fn is_capacitor(element: &Element, name: &Name, ends: (&Name, &Name), farads: i64) -> bool
    ensures { result ≡ is_capacitor name.now ends.entry.0.now ends.entry.1.now farads element.now }
{
    match element {
        Element::Capacitor {
            name: other,
            plus,
            minus,
            farads: value,
        } => name == other && ends.0 == plus && ends.1 == minus && farads == *value,
        Element::Resistor { .. } => false,
        Element::Source { .. } => false,
        Element::Mos { .. } => false,
    }
}

/// Whether an element is this source.
fn is_source(element: &Element, name: &Name, ends: (&Name, &Name), wave: &Wave) -> bool
    ensures { result ≡ is_source name.now ends.entry.0.now ends.entry.1.now wave.now element.now }
{
    match element {
        Element::Source {
            name: other,
            plus,
            minus,
            wave: value,
        } => name == other && ends.0 == plus && ends.1 == minus && is_same_wave(wave, value),
        Element::Resistor { .. } => false,
        Element::Capacitor { .. } => false,
        Element::Mos { .. } => false,
    }
}

/// Whether two elements have the same form: the same kind, name, ends and values.
fn is_same(element: &Element, other: &Element) -> bool
    ensures { result ≡ same_element element.now other.now }
{
    match element {
        Element::Resistor {
            name,
            first,
            second,
            ohms,
        } => is_resistor(other, name, (first, second), *ohms),
        Element::Capacitor {
            name,
            plus,
            minus,
            farads,
        } => is_capacitor(other, name, (plus, minus), *farads),
        Element::Source {
            name,
            plus,
            minus,
            wave,
        } => is_source(other, name, (plus, minus), wave),
        Element::Mos {
            name,
            drain,
            gate,
            source,
            bulk,
            part,
            length,
            width,
        } => {
            let ends = is_mos_between(other, (drain, gate, source, bulk));
            ends && is_mos_of(other, name, part, *length, *width)
        }
    }
}

/// Whether an element is a MOS device with this drain, gate, source and bulk.
fn is_mos_between(element: &Element, nodes: (&Name, &Name, &Name, &Name)) -> bool
    ensures { result ≡ is_mos_between nodes.entry.0.now nodes.entry.1.now nodes.entry.2.now nodes.entry.3.now element.now }
{
    match element {
        Element::Mos {
            drain,
            gate,
            source,
            bulk,
            ..
        } => nodes.0 == drain && nodes.1 == gate && nodes.2 == source && nodes.3 == bulk,
        Element::Resistor { .. } => false,
        Element::Capacitor { .. } => false,
        Element::Source { .. } => false,
    }
}

/// Whether an element is a MOS device of this name, model or table, length and width.
fn is_mos_of(element: &Element, name: &Name, part: &Name, length: i64, width: i64) -> bool
    ensures { result ≡ is_mos_of name.now part.now length width element.now }
{
    match element {
        Element::Mos {
            name: other,
            part: model,
            length: len,
            width: breadth,
            ..
        } => name == other && part == model && length == *len && width == *breadth,
        Element::Resistor { .. } => false,
        Element::Capacitor { .. } => false,
        Element::Source { .. } => false,
    }
}

/// Whether a deck has an element in the same form.
pub(crate) fn has_element(deck: &Deck, element: &Element) -> bool
    ensures { result ≡ has_element deck.now element.now }
{
    have_names(deck);
    match deck.place(element.name()) {
        None => false,
        Some(place) => is_same(element, deck.element(place)),
    }
}

/// That the names of the elements of a deck differ.
pub(crate) fn have_names(deck: &Deck)
    ensures { differ (map name_of deck.now.elements) ≡ true }
{
    deck.stop();
}

/// Whether an element is a voltage source.
pub(crate) fn is_voltage_source(element: &Element) -> bool
    ensures { result ≡ is_voltage_source element.now }
{
    matches!(element, Element::Source { .. })
}
