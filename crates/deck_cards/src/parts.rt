use crate::part::Part;
use semantics::{Element, Name, Title};
use std::marker::Model;

/// What the cards of a deck say. A contract sees it as the deck of the definitions, valid or not.
#[derive(Drop)]
pub struct DeckParts {
    /// The first line.
    pub title: Title,
    /// The stop tick, in picoseconds.
    pub stop: u64,
    /// Whether a free node without an initial voltage begins at 0.
    pub uic: bool,
    /// The grain of voltages, in microvolts.
    pub grain: u32,
    /// The models and tables, each with its name; the last one of a name holds.
    pub parts: Vec<(Name, Part)>,
    /// The initial voltages in microvolts, each with the name of its node; the last one of a name
    /// holds.
    pub initial: Vec<(Name, i64)>,
    /// The elements, in the order of their cards.
    pub elements: Vec<Element>,
}

impl Model for DeckParts {
    ghost use Rattle.std.specs.Prelude.{map};
    ghost use Rattle.semantics.specs.Deck.{DeckValue};
    ghost use Rattle.deck_cards.specs.Part.{part_of};

    ghost Value = { DeckValue };

    ghost view = { λ p. record {
      title = p.title;
      stop = p.stop;
      uic = p.uic;
      grain = p.grain;
      parts = map (λ q. (q.0, part_of q.1)) p.parts.items;
      initial = p.initial.items;
      elements = p.elements.items;
    } };
}
