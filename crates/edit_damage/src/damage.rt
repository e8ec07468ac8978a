ghost use Rattle.std.specs.Prelude.{◌≡◌, ◌<◌, ◌&&◌, nat_eq, length, IfOk};
ghost use Rattle.std.specs.List.{list_any};
ghost use Rattle.semantics.specs.Deck.{initial_of};
ghost use Rattle.edit_damage.specs.Marks.{at_lost, at_lost_source, name_of_number, starts_apart, AreMarked};
ghost use Rattle.edit_damage.specs.Near.{AreNear};

use crate::marks::Marks;
use crate::same::{has_element, is_voltage_source};
use circuit_model::{Circuit, NodeNames};
use deck_cards::Deck;
use semantics::{Element, Name};
use std::alloc::{AllocError, Global};

/// The numbers of the free nodes of the new deck that its difference from the old one can put at fault, by rising numbers:
/// the ends, gates included, of an element that is in one deck and not in the same form in the other; the nodes whose
/// initial voltage differs; and those that share a device of the new deck with such a node, or with an end of such a
/// source. The circuit is that of the new deck under these names.
///
/// It goes through the elements of both decks and through the names once each. It fails only for want of memory.
pub fn damaged(
    alloc: Global,
    old: &Deck,
    new: &Deck,
    circuit: &Circuit,
    names: &NodeNames,
) -> Result<Vec<u32>, AllocError>
    requires { circuit.now ≡ record { deck = new.now; names = names.now } }
    ensures { IfOk result (λ numbers. AreNear old.now new.now circuit.now numbers.items) }
{
    let count = circuit.node_count() as usize;
    let mut near = Marks::none(alloc, count)?;
    let mut moved = Marks::none(alloc, count)?;
    mark_lost(&mut near, &mut moved, names, old, new);
    mark_lost(&mut near, &mut moved, names, new, old);
    mark_starts(&mut moved, circuit, old, new, names);
    near.mark_around_all(circuit, &moved);
    near.free(alloc, circuit)
}

/// Marks the ends of the elements of one deck that the other does not have in the same form, and apart from them those of
/// sources.
fn mark_lost(ends: &mut Marks, sources: &mut Marks, names: &NodeNames, one: &Deck, other: &Deck)
    requires ends { length ends.old ≡ length names.now }
    requires sources { length sources.old ≡ length names.now }
    ensures ends { AreMarked (λ i. list_any (at_lost other.now (name_of_number names.now i)) one.now.elements) ends.old ends.new }
    ensures sources { AreMarked (λ i. list_any (at_lost_source other.now (name_of_number names.now i)) one.now.elements) sources.old sources.new }
{
    for place in 0..one.len() {
        mark_where_lost(ends, sources, names, one.element(place), other);
    }
}

/// Marks the ends of an element that a deck does not have in the same form, and apart from them those of a source.
fn mark_where_lost(
    ends: &mut Marks,
    sources: &mut Marks,
    names: &NodeNames,
    element: &Element,
    other: &Deck,
)
    requires ends { length ends.old ≡ length names.now }
    requires sources { length sources.old ≡ length names.now }
    ensures ends { AreMarked (λ i. at_lost other.now (name_of_number names.now i) element.now) ends.old ends.new }
    ensures sources { AreMarked (λ i. at_lost_source other.now (name_of_number names.now i) element.now) sources.old sources.new }
{
    if !has_element(other, element) {
        ends.mark_ends(names, element);
        if is_voltage_source(element) {
            sources.mark_ends(names, element);
        }
    }
}

/// Marks the nodes whose initial voltages differ.
fn mark_starts(marks: &mut Marks, circuit: &Circuit, old: &Deck, new: &Deck, names: &NodeNames)
    requires marks { length marks.old ≡ length names.now }
    requires names { circuit.now.names ≡ names.now }
    ensures { AreMarked (λ i. starts_apart old.now new.now (name_of_number names.now i)) marks.old marks.new }
{
    for node in 0..circuit.node_count() {
        mark_where_apart(marks, node, old, new, names);
    }
}

/// Marks a node where its initial voltages differ.
fn mark_where_apart(marks: &mut Marks, node: u32, old: &Deck, new: &Deck, names: &NodeNames)
    requires marks { length marks.old ≡ length names.now }
    requires node { node < length names.now }
    ensures { AreMarked (λ i. starts_apart old.now new.now (name_of_number names.now node) && nat_eq i node) marks.old marks.new }
{
    if starts_apart(old, new, names.name(node as usize)) {
        marks.mark(Some(node));
    }
}

/// Whether two decks give a name different initial voltages.
pub(crate) fn starts_apart(old: &Deck, new: &Deck, name: &Name) -> bool
    ensures { result ≡ starts_apart old.now new.now name.now }
{
    start(old, name) != start(new, name)
}

/// The voltage in microvolts that a name has at the beginning: the one that it is given, and else 0.
fn start(deck: &Deck, name: &Name) -> i64
    ensures { result ≡ initial_of deck.now name.now }
{
    deck.initial(name).unwrap_or(0)
}
