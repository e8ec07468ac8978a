ghost use Rattle.std.specs.Prelude.{◌≡◌, ◌<◌, true, false, map, length, slice_get, unsigned_abs, None, Some, IfOk, OnOk, IfSome, IfNone, IsTrue, option_map};
ghost use Rattle.std.specs.List.{list_all, list_any};
ghost use Rattle.std.specs.Str.{bytes_eq};
ghost use Rattle.semantics.specs.Deck.{nodes, name_of, driver, capacity, initial_of, look_up};
ghost use Rattle.semantics.specs.Valid.{is_valid, is_part, in_limits};
ghost use Rattle.deck_cards.specs.Answers.{Answers};
ghost use Rattle.deck_cards.specs.Cards.{deck_of};
ghost use Rattle.deck_cards.specs.Causes.{whole_cause, deck_cause};
ghost use Rattle.deck_cards.specs.Edits.{edit_cause, edited};
ghost use Rattle.deck_cards.specs.Facts.{IsIndex, IsTable, known};
ghost use Rattle.deck_cards.specs.Part.{part_of};
ghost use Rattle.deck_cards.specs.Settled.{settled};

use crate::edit::Edit;
use crate::edit_refusal::EditRefusal;
use crate::kept::Kept;
use crate::nodes::NodeTable;
use crate::part::Part;
use crate::parts::DeckParts;
use crate::settled::Settled;
use crate::{adding, apply, values};
use indexmap::IndexSet;
use semantics::{Element, Name, Title, Wave};
use std::alloc::{AllocError, Global};
use std::marker::Model;
use std::sync::Arc;

/// A valid deck. A contract sees what its cards say, and that is always valid. It lies behind one
/// shared pointer.
#[derive(Drop)]
pub struct Deck {
    kept: Arc<Kept, Global>,
}

impl Model for Deck {
    ghost use Rattle.std.specs.Arc.{arc_value};
    ghost use Rattle.semantics.specs.Deck.{DeckValue};

    ghost Value = { DeckValue };

    ghost view = { λ d. arc_value d.kept };
}

/// Refuses cards for the first cause that no element alone can tell.
fn check_whole(alloc: Global, cards: &Settled, table: &NodeTable) -> Result<(), EditRefusal>
    requires { IsTable (deck_of cards.now) table.now.names.keys table.now.facts.items }
    ensures cause { Answers result (whole_cause (deck_of cards.now)) }
    ensures parts { OnOk result (list_all (λ p. is_part (part_of p.1)) cards.now.parts.entries ≡ true) }
    ensures elements { OnOk result (list_all in_limits cards.now.elements.items ≡ true) }
{
    table.check_free(cards.uic, &cards.initial)?;
    values::check_values(alloc, cards)?;
    table.check_sizes(alloc, &cards.elements)
}

/// The names of the elements of these cards, and their nodes, where the cards make a valid deck.
fn look_ups(alloc: Global, cards: &Settled) -> Result<(IndexSet<Name>, NodeTable), EditRefusal>
    ensures cause { Answers result (deck_cause (deck_of cards.now)) }
    ensures names { IfOk result (λ found. found.0.keys ≡ map name_of cards.now.elements.items) }
    ensures table { IfOk result (λ found. IsTable (deck_of cards.now) found.1.names.keys found.1.facts.items) }
    ensures parts { IfOk result (λ found. list_all (λ p. is_part (part_of p.1)) cards.now.parts.entries ≡ true) }
    ensures elements { IfOk result (λ found. list_all in_limits cards.now.elements.items ≡ true) }
{
    let names = adding::add_each(alloc, cards)?;
    let table = NodeTable::of(alloc, &cards.elements)?;
    check_whole(alloc, cards, &table)?;
    Ok((names, table))
}

impl Deck {
    /// The valid deck that these parts say. Of two parts or initial voltages of one name the last
    /// holds, at the place of the first.
    ///
    /// # Errors
    ///
    /// The first cause, in this order: for the elements one after another `DuplicateName`,
    /// `NoSuchModel`, `NotGrounded` and `TwoDrivers`; then `Uncapped`, `NoInitial`, and `Limit` of a
    /// value, of elements, of nodes, of a node's capacitance and of its terminals. `Memory` where
    /// memory is wanting.
    pub fn of(alloc: Global, parts: DeckParts) -> Result<Deck, EditRefusal>
        ensures deck { IfOk result (λ deck. deck ≡ settled parts) }
        ensures valid { IfOk result (λ deck. IsTrue (is_valid deck)) }
        ensures cause { Answers result (deck_cause (settled parts)) }
        ensures complete { IsTrue (is_valid (settled parts)) → Answers result None }
    {
        let cards = Settled::of(alloc, parts)?;
        let (names, table) = look_ups(alloc, &cards)?;
        Ok(Deck::keeping(alloc, Kept::of(alloc, cards, names, table)?)?)
    }

    /// The deck of which this is kept.
    fn keeping(alloc: Global, kept: Kept) -> Result<Deck, AllocError>
        ensures { IfOk result (λ deck. deck ≡ kept) }
    {
        Ok(Deck {
            kept: Arc::new(alloc, kept)?,
        })
    }

    /// A deck that is the same, and lies in the same memory. It takes the same short time for a deck
    /// of any size, and what is shared is given back with the last deck that has it.
    pub fn share(&self) -> Result<Deck, AllocError>
        ensures { IfOk result (λ deck. deck ≡ self.now) }
    {
        Ok(Deck {
            kept: Arc::try_clone(&self.kept)?,
        })
    }

    /// The deck after an edit. This deck stays as it is.
    ///
    /// An element that is set keeps its place, and its value, where it is within its limit, can harm no
    /// other: so no other element is tested, and no node but where a capacitance, an element or a source
    /// comes or goes. What the edit leaves is shared with this deck.
    ///
    /// # Errors
    ///
    /// The first cause, in this order: `NoSuchName`, `WrongKind` and `NoSuchModel` of an element that is
    /// set or taken out; `DuplicateName`, `NoSuchModel`, `NotGrounded` and `TwoDrivers` of one that is
    /// added; then, of the deck that the edit would give, `Uncapped` and `NoInitial`; `Limit` of the
    /// value of the edit; and `Limit` of elements, of nodes, of a node's capacitance and of its
    /// terminals. `Memory` where memory is wanting.
    pub fn apply(&self, alloc: Global, edit: &Edit) -> Result<Deck, EditRefusal>
        ensures deck { IfOk result (λ deck. deck ≡ edited self.now edit.now) }
        ensures cause { Answers result (edit_cause self.now edit.now) }
    {
        Ok(Deck::keeping(alloc, apply::edited(alloc, &self.kept, edit)?)?)
    }

    /// The stop tick, in picoseconds.
    pub fn stop(&self) -> u64
        ensures value { result ≡ self.now.stop }
        ensures valid { IsTrue (is_valid self.now) }
    {
        self.kept.frame().stop
    }

    /// The grain of voltages, in microvolts.
    pub fn grain(&self) -> u32
        ensures value { result ≡ self.now.grain }
        ensures valid { IsTrue (is_valid self.now) }
    {
        self.kept.frame().grain
    }

    /// Whether a free node without an initial voltage begins at 0.
    pub fn uic(&self) -> bool
        ensures { result ≡ self.now.uic }
    {
        self.kept.frame().uic
    }

    /// The first line of the deck.
    pub fn title(&self) -> &Title
        ensures { result.now ≡ self.now.title }
    {
        &self.kept.frame().title
    }

    /// The number of elements.
    pub fn len(&self) -> usize
        ensures { result ≡ length self.now.elements }
    {
        self.kept.elements().len()
    }

    /// The element at this place, in the order of the cards.
    pub fn element(&self, place: usize) -> &Element
        requires { place < length self.now.elements }
        ensures { slice_get self.now.elements place ≡ Some result.now }
    {
        &self.kept.elements()[place]
    }

    /// The number of nodes; ground is none.
    pub fn node_count(&self) -> usize
        ensures { result ≡ length (nodes self.now) }
    {
        self.kept.node_names().len()
    }

    /// The name of this node, in the order of first appearance.
    pub fn node(&self, i: usize) -> &Name
        requires { i < length (nodes self.now) }
        ensures { slice_get (nodes self.now) i ≡ Some result.now }
    {
        &self.kept.node_names()[i]
    }

    /// The place of this name among the nodes. `None` exactly where it is none of them.
    pub fn node_place(&self, name: &Name) -> Option<usize>
        ensures found { IfSome result (λ i. slice_get (nodes self.now) i ≡ Some name.now) }
        ensures none { IfNone result (list_any (bytes_eq name.now) (nodes self.now) ≡ false) }
    {
        self.kept.node_names().get_index_of(name)
    }

    /// What drives this node: the voltage of a source, and whether the node is the source's second,
    /// so that it is driven with the sign turned. `None` exactly where no source drives it.
    pub fn drive(&self, i: usize) -> Option<(&Wave, bool)>
        requires { i < length (nodes self.now) }
        ensures { IfSome (slice_get (nodes self.now) i) (λ n. driver self.now n ≡ option_map (λ d. (d.0.now, d.1)) result) }
    {
        match self.kept.facts()[i].source {
            None => None,
            Some(place) => self.element(place).drive_of(self.node(i)),
        }
    }

    /// The capacitance of this node in attofarads: the sum of its capacitors.
    pub fn capacity(&self, i: usize) -> u64
        requires { i < length (nodes self.now) }
        ensures { IfSome (slice_get (nodes self.now) i) (λ n. result ≡ capacity self.now n) }
    {
        self.kept.facts()[i].farads.unsigned_abs() as u64
    }

    /// The voltage of this node at the beginning, in microvolts: the one that it is given, and else 0.
    pub fn initial_volts(&self, i: usize) -> i64
        requires { i < length (nodes self.now) }
        ensures { IfSome (slice_get (nodes self.now) i) (λ n. result ≡ initial_of self.now n) }
    {
        self.initial(self.node(i)).unwrap_or(0)
    }

    /// The voltage in microvolts that is given to a name at the beginning. `None` exactly where none
    /// is. It has an effect where the name is that of a free node.
    pub fn initial(&self, node: &Name) -> Option<i64>
        ensures { result ≡ look_up node.now self.now.initial }
    {
        self.kept.voltages().get(node).copied()
    }

    /// The place of the element of this name, in the order of the cards. `None` exactly where no
    /// element has it.
    pub fn place(&self, name: &Name) -> Option<usize>
        ensures found { IfSome result (λ i. option_map name_of (slice_get self.now.elements i) ≡ Some name.now) }
        ensures none { IfNone result (list_any (λ e. bytes_eq name.now (name_of e)) self.now.elements ≡ false) }
    {
        self.kept.element_names().get_index_of(name)
    }

    /// The part of this name. `None` exactly where there is none.
    pub fn part(&self, name: &Name) -> Option<&Part>
        ensures { option_map (λ p. part_of p.now) result ≡ look_up name.now self.now.parts }
    {
        self.kept.parts().get(name)
    }

    /// The place of the part of this name among the parts. `None` exactly where there is none.
    pub fn part_place(&self, name: &Name) -> Option<usize>
        ensures name { IfSome result (λ i. option_map (λ p. p.0) (slice_get self.now.parts i) ≡ Some name.now) }
        ensures part { IfSome result (λ i. option_map (λ p. p.1) (slice_get self.now.parts i) ≡ look_up name.now self.now.parts) }
        ensures none { IfNone result (look_up name.now self.now.parts ≡ None) }
    {
        self.kept.parts().get_index_of(name)
    }

    /// The part at this place.
    pub fn part_at(&self, place: usize) -> &Part
        requires { place < length self.now.parts }
        ensures { option_map (λ p. p.1) (slice_get self.now.parts place) ≡ Some (part_of result.now) }
    {
        let (_, part) = self.kept.parts().get_index(place).unwrap();
        part
    }
}
