ghost use Rattle.std.specs.Prelude.{◌≡◌, ◌++◌, ◌∷◌, [], length, IfOk, OnOk, OnErr};
ghost use Rattle.std.specs.Arc.{arc_value};
ghost use Rattle.deck_cards.specs.Answers.{Answers};
ghost use Rattle.deck_cards.specs.Edits.{after, edit_cause};
ghost use Rattle.board_core.specs.Board.{version, IsVersionOf};

use crate::opened::version_of;
use deck_cards::{Deck, Edit, EditRefusal, Edits};
use std::alloc::{AllocError, Global};
use std::marker::{Brand, Model};
use std::sync::Arc;
use std::sync::ledger::Blank;
use version_book::Version;

/// A deck, the edits that it accepted one after the other, and the version that a viewer may see. A contract sees the deck
/// of the beginning, the edits, and how many of them the version that is shown has.
#[derive(Drop)]
pub struct Board {
    base: Deck,
    edits: Edits,
    /// The deck after all edits.
    deck: Deck,
    shown: Arc<Version>,
    /// How many ramps the last call that settled made.
    made: u64,
}

impl Model for Board {
    ghost use Rattle.std.specs.Prelude.{length};
    ghost use Rattle.std.specs.Arc.{arc_value};
    ghost use Rattle.board_core.specs.Board.{BoardValue, IsBoard};

    ghost Value = { BoardValue };

    ghost view = { λ b. record { base = b.base; edits = b.edits; reached = length (arc_value b.shown).edits } };

    ghost invariant = { λ b. IsBoard b.base b.edits b.deck (arc_value b.shown) };
}

impl Board {
    /// The board of a deck without edits. It runs the deck, and shows version 0.
    ///
    /// # Errors
    ///
    /// Where memory is wanting.
    pub fn new(alloc: Global, base: Deck) -> Result<Board, AllocError>
        ensures { IfOk result (λ board. board ≡ record { base = base; edits = []; reached = 0 }) }
    {
        let deck = base.share()?;
        let first = base.share()?;
        let edits = Edits::new(alloc);
        let none = Edits::new(alloc);
        let (version, made) = version_of::<Brand>(
            alloc,
            first,
            none,
            deck.share()?,
            Blank::new(1),
        )?;
        Ok(Board {
            base,
            edits,
            deck,
            shown: Arc::new(alloc, version)?,
            made,
        })
    }

    /// Makes an edit of the deck after all edits so far, and gives the number of accepted edits. The version that is shown
    /// stays the one that it was.
    ///
    /// # Errors
    ///
    /// The first cause against the edit, or `Memory`; the board stays as it is.
    pub fn edit(&mut self, alloc: Global, edit: &Edit) -> Result<u64, EditRefusal>
        ensures edited { OnOk result (self.new ≡ record self.old { edits = self.old.edits ++ edit.now ∷ [] }) }
        ensures number { IfOk result (λ number. number ≡ length self.new.edits) }
        ensures cause { Answers result (edit_cause (after self.old.base self.old.edits) edit.now) }
        ensures kept { OnErr result (self.new ≡ self.old) }
    {
        let deck = self.deck.apply(alloc, edit)?;
        let own = edit.copy()?;
        self.edits.push(own)?;
        self.deck = deck;
        Ok(self.edits.len() as u64)
    }

    /// Shows the version of all accepted edits: one that is not shown yet comes from a run of its deck.
    ///
    /// # Errors
    ///
    /// Where memory is wanting; the board stays as it is.
    pub fn settle(&mut self, alloc: Global) -> Result<(), AllocError>
        ensures settled { OnOk result (self.new ≡ record self.old { reached = length self.old.edits }) }
        ensures kept { OnErr result (self.new ≡ self.old) }
    {
        if self.shown.number() == self.edits.len() as u64 {
            self.made = 0;
            return Ok(());
        }
        let (version, made) = version_of::<Brand>(
            alloc,
            self.base.share()?,
            self.edits.copy()?,
            self.deck.share()?,
            Blank::new(1),
        )?;
        self.shown = Arc::new(alloc, version)?;
        self.made = made;
        Ok(())
    }

    /// The version that is shown.
    pub fn shown(&self) -> &Arc<Version>
        ensures shown { arc_value result.now ≡ version self.now.base self.now.edits self.now.reached }
        ensures reached { length (arc_value result.now).edits ≡ self.now.reached }
        ensures of { IsVersionOf self.now.base self.now.edits (arc_value result.now) }
    {
        &self.shown
    }

    /// How many ramps the last settling made, or the opening where there was none yet; where that is above 2^64 - 1, that
    /// number.
    pub fn made(&self) -> u64 {
        self.made
    }
}
