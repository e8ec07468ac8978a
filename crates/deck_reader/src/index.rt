//! The sets by which the names on the cards of elements are looked up.

ghost use Rattle.std.specs.Prelude.{◌≡◌, ◌++◌, ◌∷◌, [], true, false, None, fold, OnOk};
ghost use Rattle.std.specs.List.{list_any};
ghost use Rattle.std.specs.Option.{option_copied};
ghost use Rattle.std.specs.Str.{bytes_eq};
ghost use Rattle.semantics.specs.Deck as deck;
ghost use Rattle.semantics.specs.Valid as valid;
ghost use Rattle.deck_cards.specs.Causes.{first_that};

use deck_cards::{add_ends, name_of};
use indexmap::IndexSet;
use semantics::{Element, Name};
use std::alloc::AllocError;

/// The node that an element drives and that is driven already.
pub fn driven_again<'a>(driven: &IndexSet<Name>, element: &'a Element) -> Option<&'a Name>
    ensures { option_copied result ≡ first_that (λ n. list_any (bytes_eq n) driven.now.keys) (valid.driven_of element.now) }
{
    let Element::Source { plus, minus, .. } = element else {
        return None;
    };
    if !plus.is_ground() && driven.contains(plus) {
        return Some(plus);
    }
    if !minus.is_ground() && driven.contains(minus) {
        return Some(minus);
    }
    None
}

/// Puts a new name last.
pub fn note_name(names: &mut IndexSet<Name>, name: &Name) -> Result<(), AllocError>
    requires { list_any (bytes_eq name.now) names.old.keys ≡ false }
    ensures { OnOk result (names.new.keys ≡ names.old.keys ++ name.now ∷ []) }
{
    names.insert(name.copy()?)?;
    Ok(())
}

/// Puts the node that an element drives last, where it drives one. It is not driven yet.
fn note_driven(driven: &mut IndexSet<Name>, element: &Element) -> Result<(), AllocError>
    requires grounded { valid.is_grounded element.now ≡ true }
    requires fresh { first_that (λ n. list_any (bytes_eq n) driven.old.keys) (valid.driven_of element.now) ≡ None }
    ensures { OnOk result (driven.new.keys ≡ driven.old.keys ++ valid.driven_of element.now) }
{
    let Element::Source { plus, minus, .. } = element else {
        return Ok(());
    };
    if plus.is_ground() {
        note_name(driven, minus)
    } else {
        note_name(driven, plus)
    }
}

/// Notes the name of an element, the node that it drives and the nodes at its ends. Its name is new,
/// and it drives no driven node.
pub fn note_element(
    names: &mut IndexSet<Name>,
    driven: &mut IndexSet<Name>,
    nodes: &mut IndexSet<Name>,
    element: &Element,
) -> Result<(), AllocError>
    requires named { list_any (bytes_eq (deck.name_of element.now)) names.old.keys ≡ false }
    requires grounded { valid.is_grounded element.now ≡ true }
    requires fresh { first_that (λ n. list_any (bytes_eq n) driven.old.keys) (valid.driven_of element.now) ≡ None }
    ensures names { OnOk result (names.new.keys ≡ names.old.keys ++ deck.name_of element.now ∷ []) }
    ensures driven { OnOk result (driven.new.keys ≡ driven.old.keys ++ valid.driven_of element.now) }
    ensures nodes { OnOk result (nodes.new.keys ≡ fold deck.with_node nodes.old.keys (deck.ends_of element.now)) }
{
    note_name(names, name_of(element))?;
    note_driven(driven, element)?;
    add_ends(nodes, element)
}

/// Whether this node is at an end of an element.
pub fn has_end(element: &Element, node: &Name) -> bool
    ensures { result ≡ list_any (bytes_eq node.now) (deck.ends_of element.now) }
{
    match element {
        Element::Resistor { first, second, .. } => node == first || node == second,
        Element::Capacitor { plus, minus, .. } => node == plus || node == minus,
        Element::Source { plus, minus, .. } => node == plus || node == minus,
        Element::Mos {
            drain,
            gate,
            source,
            ..
        } => node == drain || node == gate || node == source,
    }
}
