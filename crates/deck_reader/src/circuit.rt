ghost use Rattle.std.specs.Prelude.{◌≡◌, ◌⊎◌, [], nat_lt, length, true, false, None, IfOk};
ghost use Rattle.std.specs.Option.{option_copied};
ghost use Rattle.semantics.specs.Deck.{name_of};
ghost use Rattle.semantics.specs.Valid as valid;
ghost use Rattle.deck_cards.specs.Causes.{first_that, is_named, is_driven};
ghost use Rattle.deck_cards.specs.declared.which.Which.TheVariants.{Nodes};
ghost use Rattle.deck_reader.specs.declared.why.DeckWhy.TheVariants.{Limit, Memory};
ghost use Rattle.deck_reader.specs.Numbers.{Gives};
ghost use Rattle.deck_reader.specs.Circuit.{elements_of, element_fault, with_placed, with_element};

use crate::index::{driven_again, note_element};
use crate::placed::Placed;
use crate::why::DeckWhy;
use deck_cards::{Which, element_limit, is_grounded, name_of};
use indexmap::IndexSet;
use semantics::{Element, Name};
use std::alloc::{AllocError, Global};
use std::marker::Model;

/// The most elements, and the most nodes, of a deck.
const MOST_THINGS: usize = 100_000;

/// The elements that the cards of a deck have said so far, each with the line of its card.
#[derive(Drop)]
pub struct Circuit {
    placed: Placed,
    /// The names of the elements.
    names: IndexSet<Name>,
    /// The nodes that sources drive.
    driven: IndexSet<Name>,
    /// The nodes at the ends of the elements.
    nodes: IndexSet<Name>,
}

impl Model for Circuit {
    ghost use Rattle.std.specs.Prelude.{ℕ, List};
    ghost use Rattle.semantics.specs.declared.element.Element.{Element};
    ghost use Rattle.deck_reader.specs.Indexed.{IsIndexed};

    ghost Value = { List (ℕ × Element) };

    ghost view = { λ c. c.placed };

    ghost invariant = { λ c. IsIndexed c.placed c.names.keys c.driven.keys c.nodes.keys };
}

/// Whether there are more nodes than a deck may have.
fn is_over(nodes: &IndexSet<Name>) -> bool
    ensures { result ≡ nat_lt 100000 (length nodes.now.keys) }
{
    nodes.len() > MOST_THINGS
}

/// The refusal of an element that has one node too many.
fn one_too_many(element: &Element) -> DeckWhy
    ensures { (result ≡ Memory) ⊎ (result ≡ Limit Nodes (name_of element.now)) }
{
    match name_of(element).copy() {
        Ok(name) => DeckWhy::Limit(Which::Nodes, name),
        Err(_) => DeckWhy::Memory,
    }
}

impl Circuit {
    /// No element.
    #[tactic(auto, unfolding(crate::specs::Circuit::nodes_of))]
    pub fn new(alloc: Global) -> Circuit
        ensures { result ≡ [] }
    {
        Circuit {
            placed: Placed::new(alloc),
            names: IndexSet::new(alloc),
            driven: IndexSet::new(alloc),
            nodes: IndexSet::new(alloc),
        }
    }

    /// Whether an element has this name.
    fn is_named(&self, name: &Name) -> bool
        ensures { result ≡ is_named (elements_of self.now) name.now }
    {
        self.names.contains(name)
    }

    /// The node that this element drives and that is driven already.
    fn driven_again<'a>(&self, element: &'a Element) -> Option<&'a Name>
        ensures { option_copied result ≡ first_that (is_driven (elements_of self.now)) (valid.driven_of element.now) }
    {
        driven_again(&self.driven, element)
    }

    /// Why an element can't stand behind these.
    #[tactic(auto, unfolding(crate::specs::Circuit::element_fault))]
    fn fault(&self, element: &Element) -> Result<Option<DeckWhy>, AllocError>
        ensures { IfOk result (λ fault. fault ≡ element_fault self.now element.now) }
    {
        let name = name_of(element);
        if self.is_named(name) {
            return Ok(Some(DeckWhy::DuplicateName(name.copy()?)));
        }
        if !is_grounded(element) {
            return Ok(Some(DeckWhy::NotGrounded(name.copy()?)));
        }
        if let Some(node) = self.driven_again(element) {
            return Ok(Some(DeckWhy::TwoDrivers(node.copy()?)));
        }
        if let Some(which) = element_limit(element) {
            return Ok(Some(DeckWhy::Limit(which, name.copy()?)));
        }
        if self.placed.len() >= MOST_THINGS {
            return Ok(Some(DeckWhy::Limit(Which::Elements, name.copy()?)));
        }
        Ok(None)
    }

    /// These elements and one more, whose name is new and which drives no driven node.
    #[tactic(auto, unfolding(crate::specs::Circuit::with_placed))]
    fn with_placed(self, line: u32, element: Element) -> Result<Circuit, DeckWhy>
        requires named { is_named (elements_of self) (name_of element) ≡ false }
        requires grounded { valid.is_grounded element ≡ true }
        requires driven { first_that (is_driven (elements_of self)) (valid.driven_of element) ≡ None }
        ensures { Gives result (with_placed self line element) }
    {
        let Circuit {
            placed,
            mut names,
            mut driven,
            mut nodes,
        } = self;
        note_element(&mut names, &mut driven, &mut nodes, &element)?;
        if is_over(&nodes) {
            return Err(one_too_many(&element));
        }
        Ok(Circuit {
            placed: placed.with(line, element)?,
            names,
            driven,
            nodes,
        })
    }

    /// These elements and that of one more card.
    #[tactic(auto, unfolding(crate::specs::Circuit::with_element))]
    pub fn with_element(self, line: u32, element: Element) -> Result<Circuit, DeckWhy>
        ensures { Gives result (with_element self line element) }
    {
        match self.fault(&element)? {
            Some(why) => Err(why),
            None => self.with_placed(line, element),
        }
    }

    /// The elements, each with the line of its card.
    pub fn placed(&self) -> &Placed
        ensures { result.now ≡ self.now }
    {
        &self.placed
    }

    /// The elements without their lines.
    pub fn into_elements(self) -> Vec<Element>
        ensures { result.items ≡ elements_of self }
    {
        let Circuit { placed, .. } = self;
        placed.into_elements()
    }
}
