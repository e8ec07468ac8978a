//! The nodes of a deck, found by hash, and what is known of each.

ghost use Rattle.std.specs.Prelude.{◌≡◌, ℕ, ◌+◌, ◌*◌, ◌+ℤ◌, ◌^◌, ◌<◌, ◌≤◌, true, List, [], Some, map, fold, length, take, slice_get, option_and_then, unsigned_abs, FitsSigned, IfOk, IfSome, OnOk};
ghost use Rattle.std.specs.Int.{w128};
ghost use Rattle.std.specs.List.{All, flat_map, list_all};
ghost use Rattle.std.specs.Option.{option_or};
ghost use Rattle.semantics.specs.Deck.{DeckValue, ends_of, with_node};
ghost use Rattle.semantics.specs.Valid.{differ, is_grounded};
ghost use Rattle.deck_cards.specs.Answers.{Answers};
ghost use Rattle.deck_cards.specs.AtNode.{free_farads};
ghost use Rattle.deck_cards.specs.Causes.{uncapped, no_initial, node_farads, many_terminals, free_cause, size_cause};
ghost use Rattle.deck_cards.specs.Facts.{ChangesAt, IsTable, farads_of, known};

use crate::edit_refusal::EditRefusal;
use crate::facts::NodeFacts;
use crate::which::Which;
use crate::{counts, facts, terminals};
use indexmap::{IndexMap, IndexSet};
use semantics::{Element, Name};
use std::alloc::{AllocError, Global};

/// The nodes of a deck by first appearance, and what is known of each.
#[derive(Drop)]
pub struct NodeTable {
    pub names: IndexSet<Name>,
    pub facts: Vec<NodeFacts>,
    ghost sized: { length facts.items ≡ length names.keys },
}

/// Puts a name behind the nodes, where it is new and not ground.
fn add_node(names: &mut IndexSet<Name>, name: &Name) -> Result<(), AllocError>
    ensures { OnOk result (names.new.keys ≡ with_node names.old.keys name.now) }
{
    if !name.is_ground() && !names.contains(name) {
        names.insert(name.copy()?)?;
    }
    Ok(())
}

/// Puts the nodes at the ends of an element behind those seen so far, in the order of its card: each
/// that is not ground and not among them yet. A device's bulk is no end.
///
/// # Errors
///
/// Where memory is wanting. Some of the nodes may then stand there already.
pub fn add_ends(names: &mut IndexSet<Name>, element: &Element) -> Result<(), AllocError>
    ensures { OnOk result (names.new.keys ≡ fold with_node names.old.keys (ends_of element.now)) }
{
    match element {
        Element::Resistor { first, second, .. } => {
            add_node(names, first)?;
            add_node(names, second)
        }
        Element::Capacitor { plus, minus, .. } => {
            add_node(names, plus)?;
            add_node(names, minus)
        }
        Element::Source { plus, minus, .. } => {
            add_node(names, plus)?;
            add_node(names, minus)
        }
        Element::Mos {
            drain,
            gate,
            source,
            ..
        } => {
            add_node(names, drain)?;
            add_node(names, gate)?;
            add_node(names, source)
        }
    }
}

/// The nodes of these elements, by first appearance.
fn names_of(alloc: Global, elements: &[Element]) -> Result<IndexSet<Name>, AllocError>
    ensures { IfOk result (λ names. names.keys ≡ fold with_node [] (flat_map ends_of elements.now)) }
{
    let mut names = IndexSet::new(alloc);
    for element in elements {
        add_ends(&mut names, element)?;
    }
    Ok(names)
}

/// Adds a capacitance, where the name is a node.
fn add_farads(names: &IndexSet<Name>, facts: &mut [NodeFacts], name: &Name, farads: &i128)
    requires differ { differ names.now.keys ≡ true }
    requires size { length facts.old ≡ length names.now.keys }
    requires room { All (λ f. FitsSigned w128 (f.farads +ℤ farads.now)) facts.old }
    ensures { ChangesAt names.now.keys name.now (λ f. record f { farads = f.farads +ℤ farads.now }) facts.old facts.new }
{
    if let Some(place) = names.get_index_of(name) {
        facts[place].farads += *farads;
    }
}

/// What is known of the nodes where the sum of the capacitors at one of them is so much more.
pub fn with_farads(
    names: &IndexSet<Name>,
    facts: &Vec<NodeFacts>,
    node: &Name,
    more: &i128,
) -> Result<Vec<NodeFacts>, AllocError>
    requires differ { differ names.now.keys ≡ true }
    requires size { length facts.now.items ≡ length names.now.keys }
    requires room { All (λ f. FitsSigned w128 (f.farads +ℤ more.now)) facts.now.items }
    ensures { IfOk result (λ new. ChangesAt names.now.keys node.now
        (λ f. record f { farads = f.farads +ℤ more.now }) facts.now.items new.items) }
{
    let mut new = facts.clone()?;
    add_farads(names, &mut new, node, more);
    Ok(new)
}

/// The sum of the capacitors at a free node; `None` for any other name.
pub fn free_farads(names: &IndexSet<Name>, facts: &[NodeFacts], node: &Name) -> Option<i128>
    requires { length facts.now ≡ length names.now.keys }
    ensures { (d : DeckValue) → IsTable d names.now.keys facts.now → result ≡ free_farads d node.now }
{
    match names.get_index_of(node) {
        None => None,
        Some(place) => {
            let known = facts[place];
            if known.source.is_none() {
                Some(known.farads)
            } else {
                None
            }
        }
    }
}

/// Notes the place of a source, where the name is a node that no source before drives.
fn note_source(names: &IndexSet<Name>, facts: &mut [NodeFacts], name: &Name, source: usize)
    requires differ { differ names.now.keys ≡ true }
    requires size { length facts.old ≡ length names.now.keys }
    ensures { ChangesAt names.now.keys name.now (λ f. record f { source = option_or f.source (Some source) }) facts.old facts.new }
{
    if let Some(place) = names.get_index_of(name) {
        facts[place].source = facts[place].source.or(Some(source));
    }
}

/// Takes the element at this place into what is known of the nodes.
fn note_element(names: &IndexSet<Name>, facts: &mut [NodeFacts], elements: &[Element], place: usize)
    requires differ { differ names.now.keys ≡ true }
    requires within { place < length elements.now }
    requires few { length elements.now < 2 ^ 63 }
    requires grounded { list_all is_grounded elements.now ≡ true }
    requires before { facts.old ≡ map (known (take place elements.now)) names.now.keys }
    requires small { (n : List ℕ) → unsigned_abs (farads_of n (take place elements.now)) ≤ 2 ^ 63 * place }
    ensures after { facts.new ≡ map (known (take (place + 1) elements.now)) names.now.keys }
    ensures small { (n : List ℕ) → unsigned_abs (farads_of n (take (place + 1) elements.now)) ≤ 2 ^ 63 * (place + 1) }
{
    match &elements[place] {
        Element::Capacitor {
            plus,
            minus,
            farads,
            ..
        } => {
            let farads = i128::from(*farads);
            add_farads(names, facts, plus, &farads);
            add_farads(names, facts, minus, &farads);
        }
        Element::Source { plus, minus, .. } => {
            note_source(names, facts, plus, place);
            note_source(names, facts, minus, place);
        }
        Element::Resistor { .. } => {}
        Element::Mos { .. } => {}
    }
}

/// What these elements say of each node.
fn facts_of(
    alloc: Global,
    names: &IndexSet<Name>,
    elements: &[Element],
) -> Result<Vec<NodeFacts>, AllocError>
    requires differ { differ names.now.keys ≡ true }
    requires grounded { list_all is_grounded elements.now ≡ true }
    ensures { IfOk result (λ facts. facts.items ≡ map (known elements.now) names.now.keys) }
{
    let nothing = NodeFacts {
        source: None,
        farads: 0,
    };
    let mut facts = vec![in alloc; nothing; names.len()]?;
    for place in 0..elements.len() {
        note_element(names, &mut facts, elements, place);
    }
    Ok(facts)
}

impl NodeTable {
    /// The nodes of a deck with these elements.
    pub fn of(alloc: Global, elements: &[Element]) -> Result<NodeTable, AllocError>
        requires { list_all is_grounded elements.now ≡ true }
        ensures { (d : DeckValue) → elements.now ≡ d.elements
            → IfOk result (λ table. IsTable d table.names.keys table.facts.items) }
    {
        let names = names_of(alloc, elements)?;
        let facts = facts_of(alloc, &names, elements)?;
        Ok(NodeTable { names, facts })
    }

    /// The name of the node at a place, where there is one to tell.
    fn named(&self, place: Option<usize>) -> Result<Option<Name>, AllocError>
        requires { IfSome place (λ i. i < length self.now.names.keys) }
        ensures { IfOk result (λ name. name ≡ option_and_then (slice_get self.now.names.keys) place) }
    {
        match place {
            None => Ok(None),
            Some(place) => Ok(Some(self.names[place].copy()?)),
        }
    }

    /// Refuses the first free node that has no capacitance.
    fn check_capped(&self) -> Result<(), EditRefusal>
        ensures { (d : DeckValue) → IsTable d self.now.names.keys self.now.facts.items → Answers result (uncapped d) }
    {
        match self.named(facts::first_uncapped(&self.facts))? {
            None => Ok(()),
            Some(name) => Err(EditRefusal::Uncapped(name)),
        }
    }

    /// Refuses the first free node that has none of these initial voltages, where `uic` does not stand
    /// for it.
    fn check_initial(&self, uic: bool, initial: &IndexMap<Name, i64>) -> Result<(), EditRefusal>
        ensures { (d : DeckValue) → IsTable d self.now.names.keys self.now.facts.items → uic ≡ d.uic → initial.now.entries ≡ d.initial → Answers result (no_initial d) }
    {
        let names = self.names.as_slice();
        let place = facts::first_without_voltage(&self.facts, names, uic, initial);
        match self.named(place)? {
            None => Ok(()),
            Some(name) => Err(EditRefusal::NoInitial(name)),
        }
    }

    /// Refuses the first free node whose capacitance is above 1 µF.
    fn check_farads(&self) -> Result<(), EditRefusal>
        ensures { (d : DeckValue) → IsTable d self.now.names.keys self.now.facts.items → Answers result (node_farads d) }
    {
        match self.named(facts::first_over_capped(&self.facts))? {
            None => Ok(()),
            Some(name) => Err(EditRefusal::Limit(Which::NodeFarads, name)),
        }
    }

    /// Refuses the first free node at which more than 1,000 ends stand that carry current. What it
    /// counts is kept no longer than the call.
    fn check_terminals(&self, alloc: Global, elements: &[Element]) -> Result<(), EditRefusal>
        requires differ { differ self.now.names.keys ≡ true }
        requires few { length elements.now ≤ 100000 }
        ensures { (d : DeckValue) → IsTable d self.now.names.keys self.now.facts.items
            → elements.now ≡ d.elements → Answers result (many_terminals d) }
    {
        let counts = terminals::counts_of(alloc, &self.names, elements)?;
        match self.named(facts::first_crowded(&self.facts, &counts))? {
            None => Ok(()),
            Some(name) => Err(EditRefusal::Limit(Which::Terminals, name)),
        }
    }

    /// Refuses the first free node that has no capacitance, and then the first that has no initial
    /// voltage.
    pub fn check_free(&self, uic: bool, initial: &IndexMap<Name, i64>) -> Result<(), EditRefusal>
        ensures { (d : DeckValue) → IsTable d self.now.names.keys self.now.facts.items
            → uic ≡ d.uic → initial.now.entries ≡ d.initial → Answers result (free_cause d) }
    {
        self.check_capped()?;
        self.check_initial(uic, initial)
    }

    /// Refuses too many elements, too many nodes, and the first free node with too much capacitance
    /// or too many ends that carry current.
    pub fn check_sizes(&self, alloc: Global, elements: &[Element]) -> Result<(), EditRefusal>
        requires { self.now.names.keys ≡ fold with_node [] (flat_map ends_of elements.now) }
        ensures { (d : DeckValue) → IsTable d self.now.names.keys self.now.facts.items
            → elements.now ≡ d.elements → Answers result (size_cause d) }
    {
        counts::check_elements(elements)?;
        counts::check_nodes(alloc, self.names.len(), elements)?;
        self.check_farads()?;
        self.check_terminals(alloc, elements)
    }
}
