ghost use Rattle.std.specs.Prelude.{◌≡◌, ◌+◌, ◌^◌, ◌<◌, ℕ, false, [], ◌∷◌, ◌++◌, length, fold, slice_get, Some, IfOk, IfSome, OnOk, IsTrue};
ghost use Rattle.semantics.specs.Deck.{nodes, with_node};
ghost use Rattle.semantics.specs.Ground.{is_ground};
ghost use Rattle.circuit_model.specs.Ends.{number};
ghost use Rattle.circuit_model.specs.Names.{AreNames, HasNodes, with_nodes};

use deck_cards::Deck;
use indexmap::IndexSet;
use semantics::Name;
use std::alloc::{AllocError, Global};
use std::marker::Model;
use std::sync::Arc;

/// The names that the nodes of a deck and of those before it have had, each once and at its number. They only grow, so a
/// node keeps its number from edit to edit, and a name may be no node of the deck now. A contract sees the list of names.
#[derive(Drop)]
pub struct NodeNames {
    /// `None` where there is no name. Circuits share it.
    names: Option<Arc<IndexSet<Name>>>,
}

impl Model for NodeNames {
    ghost use Rattle.std.specs.Prelude.{ℕ, List};
    ghost use Rattle.circuit_model.specs.Names.{names_in, AreNames};

    ghost Value = { List (List ℕ) };

    ghost view = { λ n. names_in n.names };

    ghost invariant = { λ n. AreNames (names_in n.names) };
}

/// Puts a name that is not ground behind the others, where it is not among them.
fn add_name(names: &mut IndexSet<Name>, name: &Name) -> Result<(), AllocError>
    requires { is_ground name.now ≡ false }
    ensures { OnOk result (names.new.keys ≡ with_node names.old.keys name.now) }
{
    if !names.contains(name) {
        names.insert(name.copy()?)?;
    }
    Ok(())
}

/// Puts the nodes of a deck behind the names, each that is not among them.
fn add_nodes(names: &mut IndexSet<Name>, deck: &Deck) -> Result<(), AllocError>
    ensures { OnOk result (names.new.keys ≡ with_nodes names.old.keys deck.now) }
{
    for i in 0..deck.node_count() {
        add_name(names, deck.node(i))?;
    }
    Ok(())
}

/// An equal set.
fn copy_of(alloc: Global, names: &IndexSet<Name>) -> Result<IndexSet<Name>, AllocError>
    requires { AreNames names.now.keys }
    ensures { IfOk result (λ copy. copy.keys ≡ names.now.keys) }
{
    let mut copy = IndexSet::new(alloc);
    for name in names.as_slice() {
        add_name(&mut copy, name)?;
    }
    Ok(copy)
}

impl NodeNames {
    /// No names.
    pub fn new() -> NodeNames
        ensures { result ≡ [] }
    {
        NodeNames { names: None }
    }

    /// The number of names.
    pub fn len(&self) -> usize
        ensures count { result ≡ length self.now }
        ensures names { AreNames self.now }
    {
        match &self.names {
            None => 0,
            Some(names) => names.len(),
        }
    }

    /// The name of a number.
    pub fn name(&self, node: usize) -> &Name
        requires { node < length self.now }
        ensures { slice_get self.now node ≡ Some result.now }
    {
        match &self.names {
            None => unreachable!(),
            Some(names) => &names[node],
        }
    }

    /// The number of a name. `None` exactly where it is none of them, as ground never is.
    pub fn find(&self, name: &Name) -> Option<u32>
        ensures { result ≡ number self.now name.now }
    {
        let names = self.names.as_ref()?;
        let place = names.get_index_of(name)?;
        Some(place as u32)
    }

    /// Equal names.
    pub fn copy(&self) -> Result<NodeNames, AllocError>
        ensures { IfOk result (λ names. names ≡ self.now) }
    {
        let names = match &self.names {
            None => None,
            Some(names) => Some(Arc::try_clone(names)?),
        };
        Ok(NodeNames { names })
    }

    /// Whether each node of a deck is among them.
    fn has_nodes(&self, deck: &Deck) -> bool
        ensures { IsTrue result → HasNodes deck.now self.now }
    {
        for i in 0..deck.node_count() {
            if self.find(deck.node(i)).is_none() {
                return false;
            }
        }
        true
    }

    /// These names as a set of their own, which the nodes of a deck may be put into.
    fn to_set(&self, alloc: Global) -> Result<IndexSet<Name>, AllocError>
        ensures set { IfOk result (λ set. set.keys ≡ self.now) }
        ensures names { OnOk result (AreNames self.now) }
    {
        match &self.names {
            None => Ok(IndexSet::new(alloc)),
            Some(names) => copy_of(alloc, names),
        }
    }

    /// These names, and behind them the nodes of a deck that are not among them.
    pub(crate) fn with_nodes(&self, alloc: Global, deck: &Deck) -> Result<NodeNames, AllocError>
        requires { length self.now + length (nodes deck.now) < 2 ^ 32 }
        ensures names { IfOk result (λ names. names ≡ with_nodes self.now deck.now) }
        ensures nodes { IfOk result (λ names. HasNodes deck.now names) }
    {
        if self.has_nodes(deck) {
            return self.copy();
        }
        let mut names = self.to_set(alloc)?;
        add_nodes(&mut names, deck)?;
        Ok(NodeNames {
            names: Some(Arc::new(alloc, names)?),
        })
    }
}
