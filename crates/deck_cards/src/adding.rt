//! Elements that are added in turn, and why one can't be.

ghost use Rattle.std.specs.Prelude.{◌≡◌, ◌++◌, not, true, [], ◌∷◌, List, map, IfOk, OnOk};
ghost use Rattle.std.specs.List.{flat_map, list_any};
ghost use Rattle.std.specs.Option.{option_map};
ghost use Rattle.std.specs.Str.{bytes_eq};
ghost use Rattle.semantics.specs.declared.element.Element.{Element as Card};
ghost use Rattle.semantics.specs.Deck.{DeckValue, name_of};
ghost use Rattle.semantics.specs.Valid.{driven_of, has_part, is_grounded};
ghost use Rattle.deck_cards.specs.declared.edit_refusal.EditRefusal.TheVariants as refusal;
ghost use Rattle.deck_cards.specs.Answers.{Answers};
ghost use Rattle.deck_cards.specs.Cards.{deck_of};
ghost use Rattle.deck_cards.specs.Causes.{when, first_that, part_name, add_cause, adding_cause};
ghost use Rattle.deck_cards.specs.Part.{part_of};

use crate::edit_refusal::EditRefusal;
use crate::part::Part;
use crate::settled::Settled;
use indexmap::{IndexMap, IndexSet};
use semantics::{Element, Name};
use std::alloc::{AllocError, Global};

/// Puts a name into a set, and says whether it is new.
pub fn insert(set: &mut IndexSet<Name>, name: &Name) -> Result<bool, AllocError>
    ensures fresh { IfOk result (λ fresh. fresh ≡ not (list_any (bytes_eq name.now) set.old.keys)) }
    ensures keys { IfOk result (λ fresh. fresh ≡ true → set.new.keys ≡ set.old.keys ++ name.now ∷ []) }
{
    Ok(set.insert(name.copy()?)?)
}

/// Puts the name of an element behind those of the elements before it, of which none may have it.
fn add_name(names: &mut IndexSet<Name>, element: &Element) -> Result<(), EditRefusal>
    ensures cause { Answers result (when (list_any (bytes_eq (name_of element.now)) names.old.keys) (refusal.DuplicateName (name_of element.now))) }
    ensures keys { OnOk result (names.new.keys ≡ names.old.keys ++ name_of element.now ∷ []) }
{
    let name = element.name();
    if !insert(names, name)? {
        return Err(EditRefusal::DuplicateName(name.copy()?));
    }
    Ok(())
}

/// Refuses a device whose part is not there.
pub fn check_part(parts: &IndexMap<Name, Part>, element: &Element) -> Result<(), EditRefusal>
    ensures { (d : DeckValue) → map (λ p. (p.0, part_of p.1)) parts.now.entries ≡ d.parts
        → Answers result (when (not (has_part d element.now)) (refusal.NoSuchModel (part_name element.now))) }
{
    match element {
        Element::Mos { part, .. } => {
            if !parts.contains_key(part) {
                return Err(EditRefusal::NoSuchModel(part.copy()?));
            }
            Ok(())
        }
        Element::Source { .. } => Ok(()),
        Element::Capacitor { .. } => Ok(()),
        Element::Resistor { .. } => Ok(()),
    }
}

/// Refuses a capacitor or source that has not exactly one end at ground.
pub fn check_grounded(element: &Element) -> Result<(), EditRefusal>
    ensures { Answers result (when (not (is_grounded element.now)) (refusal.NotGrounded (name_of element.now))) }
{
    if !element.is_grounded() {
        return Err(EditRefusal::NotGrounded(element.name().copy()?));
    }
    Ok(())
}

/// Puts the node that a source drives behind those that are driven, of which it may be none.
fn add_driven(driven: &mut IndexSet<Name>, element: &Element) -> Result<(), EditRefusal>
    requires { is_grounded element.now ≡ true }
    ensures cause { Answers result (option_map refusal.TwoDrivers (first_that (λ n. list_any (bytes_eq n) driven.old.keys) (driven_of element.now))) }
    ensures keys { OnOk result (driven.new.keys ≡ driven.old.keys ++ driven_of element.now) }
{
    match element {
        Element::Source { plus, minus, .. } => {
            let node = if plus.is_ground() { minus } else { plus };
            if !insert(driven, node)? {
                return Err(EditRefusal::TwoDrivers(node.copy()?));
            }
            Ok(())
        }
        Element::Mos { .. } => Ok(()),
        Element::Capacitor { .. } => Ok(()),
        Element::Resistor { .. } => Ok(()),
    }
}

/// Adds an element behind those that have these names and drive these nodes.
fn add(
    names: &mut IndexSet<Name>,
    driven: &mut IndexSet<Name>,
    cards: &Settled,
    element: &Element,
) -> Result<(), EditRefusal>
    ensures cause { (before : List Card) → names.old.keys ≡ map name_of before → driven.old.keys ≡ flat_map driven_of before
        → Answers result (add_cause (deck_of cards.now) before element.now) }
    ensures names { OnOk result (names.new.keys ≡ names.old.keys ++ name_of element.now ∷ []) }
    ensures driven { OnOk result (driven.new.keys ≡ driven.old.keys ++ driven_of element.now) }
{
    add_name(names, element)?;
    check_part(&cards.parts, element)?;
    check_grounded(element)?;
    add_driven(driven, element)
}

/// Adds the elements in turn, and gives their names.
pub fn add_each(alloc: Global, cards: &Settled) -> Result<IndexSet<Name>, EditRefusal>
    ensures cause { Answers result (adding_cause (deck_of cards.now) [] cards.now.elements.items) }
    ensures names { IfOk result (λ names. names.keys ≡ map name_of cards.now.elements.items) }
{
    let mut names = IndexSet::with_capacity(alloc, cards.elements.len())?;
    let mut driven = IndexSet::new(alloc);
    for element in &cards.elements {
        add(&mut names, &mut driven, cards, element)?;
    }
    Ok(names)
}
