//! How many elements and nodes a deck may have.

ghost use Rattle.std.specs.Prelude.{◌≡◌, ◌≤◌, [], length, fold, OnOk};
ghost use Rattle.std.specs.List.{flat_map};
ghost use Rattle.semantics.specs.Deck.{DeckValue, ends_of, with_node};
ghost use Rattle.deck_cards.specs.Answers.{Answers};
ghost use Rattle.deck_cards.specs.Causes.{many_elements, many_nodes};

use crate::edit_refusal::EditRefusal;
use crate::nodes;
use crate::which::Which;
use indexmap::IndexSet;
use semantics::Element;
use std::alloc::Global;

/// How many elements a deck may have, and how many nodes.
const MOST: usize = 100_000;

/// Refuses the element that is one too many.
#[tactic(auto, using(crate::proofs::Counting::few_items), unfolding(crate::specs::Causes::many_elements))]
pub fn check_elements(elements: &[Element]) -> Result<(), EditRefusal>
    ensures few { OnOk result (length elements.now ≤ 100000) }
    ensures cause { (d : DeckValue) → elements.now ≡ d.elements → Answers result (many_elements d) }
{
    match elements.get(MOST) {
        None => Ok(()),
        Some(element) => {
            let name = element.name().copy()?;
            Err(EditRefusal::Limit(Which::Elements, name))
        }
    }
}

/// Refuses the first element that names a node that is one too many, in a deck with this number of nodes.
pub fn check_nodes(alloc: Global, count: usize, elements: &[Element]) -> Result<(), EditRefusal>
    requires { count ≡ length (fold with_node [] (flat_map ends_of elements.now)) }
    ensures { (d : DeckValue) → elements.now ≡ d.elements → Answers result (many_nodes d) }
{
    if count <= MOST {
        return Ok(());
    }
    let mut names = IndexSet::new(alloc);
    for element in elements {
        nodes::add_ends(&mut names, element)?;
        if names.len() > MOST {
            let name = element.name().copy()?;
            return Err(EditRefusal::Limit(Which::Nodes, name));
        }
    }
    Ok(())
}
