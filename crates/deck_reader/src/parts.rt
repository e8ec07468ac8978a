ghost use Rattle.std.specs.Prelude.{◌≡◌, ◌++◌, ◌∷◌, [], false, map, is_some, IfOk};
ghost use Rattle.semantics.specs.Deck.{look_up};
ghost use Rattle.semantics.specs.Part as part;
ghost use Rattle.deck_cards.specs.Part.{part_of};
ghost use Rattle.deck_reader.specs.Numbers.{Gives};
ghost use Rattle.deck_reader.specs.Told.{with_table, with_model};

use crate::model::model_of;
use crate::table::table_of;
use crate::why::DeckWhy;
use crate::words::Words;
use deck_cards::Part;
use indexmap::IndexMap;
use semantics::Name;
use std::alloc::{AllocError, Global};
use std::marker::Model;

/// The models and tables that the cards of a deck have said so far, each with its name.
#[derive(Drop)]
pub struct Parts {
    parts: IndexMap<Name, Part>,
}

impl Model for Parts {
    ghost use Rattle.std.specs.Prelude.{ℕ, List, map};
    ghost use Rattle.semantics.specs.Part as part;
    ghost use Rattle.deck_cards.specs.Part.{part_of};

    ghost Value = { List (List ℕ × part.Part) };

    ghost view = { λ t. map (λ p. (p.0, part_of p.1)) t.parts.entries };
}

impl Parts {
    /// No part.
    pub fn new(alloc: Global) -> Parts
        ensures { result ≡ [] }
    {
        Parts {
            parts: IndexMap::new(alloc),
        }
    }

    /// Whether a part has this name.
    pub fn has(&self, name: &Name) -> bool
        ensures { result ≡ is_some (look_up name.now self.now) }
    {
        self.parts.contains_key(name)
    }

    /// These parts and one more, whose name is new.
    fn with(self, name: Name, part: Part) -> Result<Parts, AllocError>
        requires { is_some (look_up name self) ≡ false }
        ensures { IfOk result (λ parts. parts ≡ self ++ (name, part_of part) ∷ []) }
    {
        let Parts { mut parts } = self;
        parts.insert(name, part)?;
        Ok(Parts { parts })
    }

    /// These parts and that of the words behind `.table`.
    #[tactic(auto, unfolding(crate::specs::Told::with_table))]
    pub fn with_table(self, alloc: Global, words: &mut Words<'_>) -> Result<Parts, DeckWhy>
        ensures { Gives result (with_table self words.old) }
    {
        let word = words.next().ok_or(DeckWhy::WrongWords)?;
        let table = table_of(alloc, words)?;
        let name = word.to_name(alloc)?;
        if self.has(&name) {
            return Err(DeckWhy::DuplicateModel(name));
        }
        match table.limit() {
            Some(which) => Err(DeckWhy::Limit(which, name)),
            None => Ok(self.with(name, table.into_part())?),
        }
    }

    /// These parts and that of the words behind `.model`.
    #[tactic(auto, unfolding(crate::specs::Told::with_model))]
    pub fn with_model(self, alloc: Global, words: &mut Words<'_>) -> Result<Parts, DeckWhy>
        ensures { Gives result (with_model self words.old) }
    {
        let word = words.next().ok_or(DeckWhy::WrongWords)?;
        let model = model_of(alloc, words)?;
        let name = word.to_name(alloc)?;
        if self.has(&name) {
            return Err(DeckWhy::DuplicateModel(name));
        }
        match model.limit() {
            Some(which) => Err(DeckWhy::Limit(which, name)),
            None => Ok(self.with(name, model.part())?),
        }
    }

    /// The parts, each with its name.
    pub fn into_parts(self, alloc: Global) -> Result<Vec<(Name, Part)>, AllocError>
        ensures { IfOk result (λ parts. map (λ p. (p.0, part_of p.1)) parts.items ≡ self) }
    {
        self.parts.into_iter().collect(alloc)
    }
}
