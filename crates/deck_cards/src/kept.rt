ghost use Rattle.std.specs.Prelude.{◌≡◌, map, IfOk, IsTrue};
ghost use Rattle.semantics.specs.Deck.{nodes, name_of};
ghost use Rattle.semantics.specs.Valid.{is_valid};
ghost use Rattle.deck_cards.specs.Cards.{deck_of};
ghost use Rattle.deck_cards.specs.Facts.{IsIndex, known};
ghost use Rattle.deck_cards.specs.Part.{part_of};

use crate::facts::NodeFacts;
use crate::frame::Frame;
use crate::nodes::NodeTable;
use crate::part::Part;
use crate::settled::Settled;
use indexmap::{IndexMap, IndexSet};
use semantics::{Element, Name};
use std::alloc::{AllocError, Global};
use std::marker::Model;
use std::sync::Arc;

/// What a deck keeps. Each part lies behind a shared pointer of its own, so that a deck after an edit
/// has in common with it what the edit leaves.
#[derive(Drop)]
pub struct Kept {
    frame: Arc<Frame, Global>,
    initial: Arc<IndexMap<Name, i64>, Global>,
    elements: Arc<Vec<Element>, Global>,
    /// The names of its elements, each at the element's place.
    names: Arc<IndexSet<Name>, Global>,
    /// The names of its nodes, by first appearance.
    nodes: Arc<IndexSet<Name>, Global>,
    /// What is known of each node, at the node's place.
    facts: Arc<Vec<NodeFacts>, Global>,
}

impl Model for Kept {
    ghost use Rattle.std.specs.Arc.{arc_value};
    ghost use Rattle.semantics.specs.Deck.{DeckValue};
    ghost use Rattle.deck_cards.specs.Cards.{framed};
    ghost use Rattle.deck_cards.specs.Facts.{IsIndex};

    ghost Value = { DeckValue };

    ghost view = { λ d. framed (arc_value d.frame) (arc_value d.initial).entries
        (arc_value d.elements).items };

    ghost invariant = { λ d. IsIndex (framed (arc_value d.frame) (arc_value d.initial).entries
        (arc_value d.elements).items) (arc_value d.names).keys (arc_value d.nodes).keys
        (arc_value d.facts).items };
}

impl Kept {
    /// What is kept of the deck that these cards say, with the names of its elements and its nodes.
    pub fn of(
        alloc: Global,
        cards: Settled,
        names: IndexSet<Name>,
        table: NodeTable,
    ) -> Result<Kept, AllocError>
        requires { IsIndex (deck_of cards) names.keys table.names.keys table.facts.items }
        ensures { IfOk result (λ kept. kept ≡ deck_of cards) }
    {
        let Settled {
            title,
            stop,
            uic,
            grain,
            parts,
            initial,
            elements,
        } = cards;
        let NodeTable {
            names: nodes,
            facts,
        } = table;
        let frame = Frame {
            title,
            stop,
            uic,
            grain,
            parts,
        };
        Ok(Kept {
            frame: Arc::new(alloc, frame)?,
            initial: Arc::new(alloc, initial)?,
            elements: Arc::new(alloc, elements)?,
            names: Arc::new(alloc, names)?,
            nodes: Arc::new(alloc, nodes)?,
            facts: Arc::new(alloc, facts)?,
        })
    }

    /// What no edit changes.
    pub fn frame(&self) -> &Frame
        ensures stop { result.now.stop ≡ self.now.stop }
        ensures grain { result.now.grain ≡ self.now.grain }
        ensures uic { result.now.uic ≡ self.now.uic }
        ensures title { result.now.title ≡ self.now.title }
        ensures valid { IsTrue (is_valid self.now) }
    {
        &self.frame
    }

    /// Its models and tables by name.
    pub fn parts(&self) -> &IndexMap<Name, Part>
        ensures { map (λ p. (p.0, part_of p.1)) result.now.entries ≡ self.now.parts }
    {
        &self.frame.parts
    }

    /// The initial voltages by name.
    pub fn voltages(&self) -> &IndexMap<Name, i64>
        ensures { result.now.entries ≡ self.now.initial }
    {
        &self.initial
    }

    /// Its elements.
    pub fn elements(&self) -> &[Element]
        ensures { result.now ≡ self.now.elements }
    {
        self.elements.as_slice()
    }

    /// The names of its elements, each at the element's place.
    pub fn element_names(&self) -> &IndexSet<Name>
        ensures { result.now.keys ≡ map name_of self.now.elements }
    {
        &self.names
    }

    /// The names of its nodes, by first appearance.
    pub fn node_names(&self) -> &IndexSet<Name>
        ensures { result.now.keys ≡ nodes self.now }
    {
        &self.nodes
    }

    /// What is known of each node, at the node's place.
    pub fn facts(&self) -> &Vec<NodeFacts>
        ensures known { result.now.items ≡ map (known self.now.elements) (nodes self.now) }
        ensures valid { IsTrue (is_valid self.now) }
    {
        &self.facts
    }

    /// The same with other elements, of which the same is known.
    pub fn with_elements(&self, alloc: Global, elements: Vec<Element>) -> Result<Kept, AllocError>
        requires { IsIndex (record self.now { elements = elements.items }) (map name_of self.now.elements)
            (nodes self.now) (map (known self.now.elements) (nodes self.now)) }
        ensures { IfOk result (λ kept. kept ≡ record self.now { elements = elements.items }) }
    {
        Ok(Kept {
            frame: Arc::try_clone(&self.frame)?,
            initial: Arc::try_clone(&self.initial)?,
            elements: Arc::new(alloc, elements)?,
            names: Arc::try_clone(&self.names)?,
            nodes: Arc::try_clone(&self.nodes)?,
            facts: Arc::try_clone(&self.facts)?,
        })
    }

    /// The same with other initial voltages.
    pub fn with_voltages(
        &self,
        alloc: Global,
        initial: IndexMap<Name, i64>,
    ) -> Result<Kept, AllocError>
        requires { IsTrue (is_valid (record self.now { initial = initial.entries })) }
        ensures { IfOk result (λ kept. kept ≡ record self.now { initial = initial.entries }) }
    {
        Ok(Kept {
            frame: Arc::try_clone(&self.frame)?,
            initial: Arc::new(alloc, initial)?,
            elements: Arc::try_clone(&self.elements)?,
            names: Arc::try_clone(&self.names)?,
            nodes: Arc::try_clone(&self.nodes)?,
            facts: Arc::try_clone(&self.facts)?,
        })
    }

    /// The same with other elements of the same names and nodes, and what is known of these.
    pub fn with_facts(
        &self,
        alloc: Global,
        elements: Vec<Element>,
        facts: Vec<NodeFacts>,
    ) -> Result<Kept, AllocError>
        requires { IsIndex (record self.now { elements = elements.items }) (map name_of self.now.elements)
            (nodes self.now) facts.items }
        ensures { IfOk result (λ kept. kept ≡ record self.now { elements = elements.items }) }
    {
        Ok(Kept {
            frame: Arc::try_clone(&self.frame)?,
            initial: Arc::try_clone(&self.initial)?,
            elements: Arc::new(alloc, elements)?,
            names: Arc::try_clone(&self.names)?,
            nodes: Arc::try_clone(&self.nodes)?,
            facts: Arc::new(alloc, facts)?,
        })
    }

    /// The same with other elements, their names and their nodes.
    pub fn with_nodes(
        &self,
        alloc: Global,
        elements: Vec<Element>,
        names: IndexSet<Name>,
        table: NodeTable,
    ) -> Result<Kept, AllocError>
        requires { IsIndex (record self.now { elements = elements.items }) names.keys table.names.keys
            table.facts.items }
        ensures { IfOk result (λ kept. kept ≡ record self.now { elements = elements.items }) }
    {
        let NodeTable {
            names: nodes,
            facts,
        } = table;
        Ok(Kept {
            frame: Arc::try_clone(&self.frame)?,
            initial: Arc::try_clone(&self.initial)?,
            elements: Arc::new(alloc, elements)?,
            names: Arc::new(alloc, names)?,
            nodes: Arc::new(alloc, nodes)?,
            facts: Arc::new(alloc, facts)?,
        })
    }
}
