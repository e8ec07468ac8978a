ghost use Rattle.std.specs.Prelude.{◌≡◌, ◌&&◌, false, not, IfOk, None, OnOk};
ghost use Rattle.std.specs.Option.{option_map_or};
ghost use Rattle.semantics.specs.declared.element.Element.{Element};
ghost use Rattle.deck_cards.specs.Edits.{edit_cause, edited, has_name};
ghost use Rattle.edit_damage.specs.ByEdit.{is_edited, AreFound};
ghost use Rattle.edit_damage.specs.ByEdit.{is_near_element, is_near_lost, is_near_named, is_near_start};
ghost use Rattle.edit_damage.specs.Near.{AreNear};
ghost use Rattle.edit_damage.specs.Same.{has_element};

use crate::accepted::know_accepted;
use crate::damage::starts_apart;
use crate::found::Found;
use crate::same::{has_element, have_names};
use circuit_model::{Circuit, NodeNames};
use deck_cards::{Deck, Edit};
use semantics::{Element, Name};
use std::alloc::{AllocError, Global};

/// The numbers of the free nodes of the new deck that an edit can put at fault, by rising numbers: those that `damaged`
/// finds between the deck before the edit and the deck after it. The old deck has nothing against the edit, and the
/// circuit is that of the new deck under these names.
///
/// It looks up the element of the edit in both decks, or the node that the edit gives a voltage, and goes through the
/// devices at that node or, for a source, at the node that it drives. It never goes through all elements or all names.
/// It fails only for want of memory.
pub fn damaged_by(
    alloc: Global,
    edit: &Edit,
    old: &Deck,
    new: &Deck,
    circuit: &Circuit,
    names: &NodeNames,
) -> Result<Vec<u32>, AllocError>
    requires accepted { edit_cause old.now edit.now ≡ None }
    requires edited { new.now ≡ edited old.now edit.now }
    requires circuit { circuit.now ≡ record { deck = new.now; names = names.now } }
    ensures { IfOk result (λ numbers. AreNear old.now new.now circuit.now numbers.items) }
{
    know_accepted(old, edit);
    let mut found = Found::none(alloc);
    add_lost(&mut found, circuit, names, edit, old, new)?;
    add_lost(&mut found, circuit, names, edit, new, old)?;
    add_start(&mut found, circuit, names, edit, old, new)?;
    Ok(found.sorted())
}

/// The name of the element that an edit sets, puts in or takes out. `None` where the edit gives a voltage.
fn element_name(edit: &Edit) -> Option<&Name>
    ensures { (e : Element) → is_edited edit.now e ≡ option_map_or (λ name. has_name name.now e) result false }
{
    match edit {
        Edit::SetR { name, .. } => Some(name),
        Edit::SetC { name, .. } => Some(name),
        Edit::SetWave { name, .. } => Some(name),
        Edit::SetModel { name, .. } => Some(name),
        Edit::SetIc { .. } => None,
        Edit::Add(element) => Some(element.name()),
        Edit::Remove(name) => Some(name),
    }
}

/// Adds the free nodes near the element of an edit, where the one deck has it in a form that the other has not.
fn add_lost(
    found: &mut Found,
    circuit: &Circuit,
    names: &NodeNames,
    edit: &Edit,
    one: &Deck,
    other: &Deck,
) -> Result<(), AllocError>
    requires { circuit.now.names ≡ names.now }
    ensures { OnOk result
        (AreFound circuit.now (is_near_lost circuit.now.deck one.now other.now edit.now) found.old found.new) }
{
    match element_name(edit) {
        None => Ok(()),
        Some(name) => add_named(found, circuit, names, name, one, other),
    }
}

/// Adds the free nodes near the element of a name, where the one deck has it in a form that the other has not.
fn add_named(
    found: &mut Found,
    circuit: &Circuit,
    names: &NodeNames,
    name: &Name,
    one: &Deck,
    other: &Deck,
) -> Result<(), AllocError>
    requires { circuit.now.names ≡ names.now }
    ensures { OnOk result
        (AreFound circuit.now (is_near_named circuit.now.deck one.now other.now name.now) found.old found.new) }
{
    have_names(one);
    match one.place(name) {
        None => Ok(()),
        Some(place) => add_where_lost(found, circuit, names, one.element(place), other),
    }
}

/// Adds the free nodes near an element, where a deck does not have it in the same form.
fn add_where_lost(
    found: &mut Found,
    circuit: &Circuit,
    names: &NodeNames,
    element: &Element,
    other: &Deck,
) -> Result<(), AllocError>
    requires { circuit.now.names ≡ names.now }
    ensures { OnOk result
        (AreFound circuit.now
        (λ n. not (has_element other.now element.now) && is_near_element circuit.now.deck element.now n)
        found.old found.new) }
{
    if !has_element(other, element) {
        found.add_near(circuit, names, element)?;
    }
    Ok(())
}

/// Adds the free nodes around the node that an edit gives a voltage, where it is another one.
fn add_start(
    found: &mut Found,
    circuit: &Circuit,
    names: &NodeNames,
    edit: &Edit,
    old: &Deck,
    new: &Deck,
) -> Result<(), AllocError>
    requires deck { circuit.now.deck ≡ new.now }
    requires names { circuit.now.names ≡ names.now }
    ensures { OnOk result
        (AreFound circuit.now (is_near_start old.now new.now edit.now) found.old found.new) }
{
    if let Edit::SetIc { node, .. } = edit {
        if starts_apart(old, new, node) {
            found.add_around(circuit, names, node)?;
        }
    }
    Ok(())
}
