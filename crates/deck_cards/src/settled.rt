ghost use Rattle.std.specs.Prelude.{◌≡◌, IfOk};
ghost use Rattle.deck_cards.specs.Cards.{deck_of};
ghost use Rattle.deck_cards.specs.Settled.{put_all, settled};

use crate::part::Part;
use crate::parts::DeckParts;
use indexmap::IndexMap;
use semantics::{Element, Name, Title};
use std::alloc::{AllocError, Global};

/// What the cards of a deck say, with each part and each initial voltage once.
#[derive(Drop)]
pub struct Settled {
    pub title: Title,
    pub stop: u64,
    pub uic: bool,
    pub grain: u32,
    pub parts: IndexMap<Name, Part>,
    pub initial: IndexMap<Name, i64>,
    pub elements: Vec<Element>,
}

/// These names and values, each name once: its last value holds, at the place of its first.
pub fn each_once<V: Drop>(
    alloc: Global,
    pairs: Vec<(Name, V)>,
) -> Result<IndexMap<Name, V>, AllocError>
    ensures { IfOk result (λ map. map.entries ≡ put_all pairs.items) }
{
    let mut map = IndexMap::new(alloc);
    map.extend(pairs)?;
    Ok(map)
}

impl Settled {
    /// What these parts say.
    pub fn of(alloc: Global, parts: DeckParts) -> Result<Settled, AllocError>
        ensures { IfOk result (λ cards. deck_of cards ≡ settled parts) }
    {
        Ok(Settled {
            title: parts.title,
            stop: parts.stop,
            uic: parts.uic,
            grain: parts.grain,
            parts: each_once(alloc, parts.parts)?,
            initial: each_once(alloc, parts.initial)?,
            elements: parts.elements,
        })
    }
}
