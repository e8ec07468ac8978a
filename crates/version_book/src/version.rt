ghost use Rattle.std.specs.Prelude.{◌≡◌, ◌≤◌, ◌<◌, length, true, Some, max, All, IfOk, IfSome, option_and_then, slice_get};
ghost use Rattle.std.specs.Option.{option_map};
ghost use Rattle.semantics.specs.Deck.{name_of};
ghost use Rattle.semantics.specs.Event.{events};
ghost use Rattle.semantics.specs.Run.{run};
ghost use Rattle.semantics.specs.Wave.{wave};
ghost use Rattle.deck_cards.specs.Edits.{accepts, after};
ghost use Rattle.circuit_model.specs.Carried.{HasVoltage};
ghost use Rattle.record_waves.specs.RunRecord.{IsRunOf};
ghost use Rattle.version_book.specs.Version.{is_node, voltage_of, wave_of, IsEdited};

use crate::numerators::numerator_at;
use crate::waves::node_waves;
use circuit_model::{Circuit, Event, Line, NodeNames};
use deck_cards::{Deck, Edits, Name};
use histories::Histories;
use std::alloc::{AllocError, Global};
use std::marker::Model;

/// What an editor may show: a base deck, the edits of it that were accepted, the deck after them, and the waves and
/// events of that deck's run. A contract sees the two decks and the edits, which say all that the readers answer. No call
/// changes a version.
#[derive(Drop)]
pub struct Version {
    base: Deck,
    edits: Edits,
    deck: Deck,
    /// The wave of each node of the deck, in the order of the nodes.
    waves: Vec<Vec<Line>>,
    events: Vec<Event>,
}

impl Model for Version {
    ghost use Rattle.std.specs.Prelude.{map};
    ghost use Rattle.version_book.specs.Version.{IsVersion, VersionValue};

    ghost Value = { VersionValue };

    ghost view = { λ v. record { base = v.base; edits = v.edits; deck = v.deck } };

    ghost invariant = { λ v. IsVersion (record { base = v.base; edits = v.edits; deck = v.deck })
        (map (λ lines. lines.items) v.waves.items) v.events.items };
}

impl Version {
    /// The version of a base deck, its accepted edits and the deck after them, from a record of that deck's run. It goes
    /// from line to line and from crossing to crossing, and not from tick to tick.
    ///
    /// # Errors
    ///
    /// Where memory is wanting.
    pub fn of(
        alloc: Global,
        base: Deck,
        edits: Edits,
        deck: Deck,
        circuit: &Circuit,
        names: &NodeNames,
        past: &Histories,
    ) -> Result<Version, AllocError>
        requires accepted { accepts base edits ≡ true }
        requires after { deck ≡ after base edits }
        requires circuit { circuit.now ≡ record { deck = deck; names = names.now } }
        requires run { IsRunOf circuit.now past.now }
        ensures { IfOk result (λ version.
            version ≡ record { base = base; edits = edits; deck = deck }) }
    {
        let waves = node_waves(alloc, &deck, circuit, names, past)?;
        let events = record_events::events(alloc, circuit, past)?;
        Ok(Version {
            base,
            edits,
            deck,
            waves,
            events,
        })
    }

    /// The number of accepted edits.
    pub fn number(&self) -> u64
        ensures { result ≡ length self.now.edits }
    {
        self.edits.len() as u64
    }

    /// The deck that the first edit was made of.
    pub fn base(&self) -> &Deck
        ensures { result.now ≡ self.now.base }
    {
        &self.base
    }

    /// The accepted edits, in the order in which they were made.
    pub fn edits(&self) -> &Edits
        ensures { result.now ≡ self.now.edits }
    {
        &self.edits
    }

    /// The deck after the edits.
    pub fn deck(&self) -> &Deck
        ensures deck { result.now ≡ self.now.deck }
        ensures edited { IsEdited self.now }
    {
        &self.deck
    }

    /// The lines of a node's wave. `None` exactly where the name is no node of the deck.
    pub fn wave(&self, node: &Name) -> Option<&[Line]>
        ensures wave { option_map (λ lines. lines.now) result ≡ wave_of self.now.deck node.now }
        ensures denominators { IfSome result (λ lines. All (λ l. 1 ≤ l.den) lines.now) }
    {
        let place = self.deck.node_place(node)?;
        Some(self.waves[place].as_slice())
    }

    /// The number of lines of a node's wave. `None` exactly where the name is no node of the deck.
    pub fn wave_len(&self, node: &Name) -> Option<u64>
        ensures { result ≡ option_map (λ lines. length lines) (wave_of self.now.deck node.now) }
    {
        let lines = self.wave(node)?;
        Some(lines.len() as u64)
    }

    /// The line at this place of a node's wave. `None` exactly where the name is no node of the deck, or its wave has no
    /// such place.
    pub fn wave_entry(&self, node: &Name, i: u64) -> Option<Line>
        ensures { result
            ≡ option_and_then (λ lines. slice_get lines i) (wave_of self.now.deck node.now) }
    {
        let lines = self.wave(node)?;
        lines.get(i as usize).copied()
    }

    /// The numerator of a node's voltage at a tick, over the denominator of the line in force there: the last of its wave
    /// that begins at the tick or before. Below the stop both are those of the run; at the stop, where no line begins, it
    /// is the voltage of the run, maybe over another denominator. `None` exactly where the name is no node of the deck,
    /// or the tick is after the stop.
    pub fn value_at(&self, node: &Name, tick: u64) -> Option<i128>
        ensures value { result ≡ option_map (λ v. v.num) (voltage_of self.now.deck node.now tick) }
        ensures below { is_node self.now.deck node.now ≡ true → tick < max 1 self.now.deck.stop
            → voltage_of self.now.deck node.now tick ≡ Some (run self.now.deck tick node.now) }
        ensures up_to { is_node self.now.deck node.now ≡ true → tick ≤ self.now.deck.stop
            → HasVoltage (wave self.now.deck node.now) tick (run self.now.deck tick node.now) }
    {
        if tick > self.deck.stop() {
            return None;
        }
        let lines = self.wave(node)?;
        Some(numerator_at(lines, tick))
    }

    /// The events of the run, by tick and then by the place of the device.
    pub fn events(&self) -> &[Event]
        ensures { result.now ≡ events self.now.deck }
    {
        self.events.as_slice()
    }

    /// The number of events.
    pub fn event_count(&self) -> u64
        ensures { result ≡ length (events self.now.deck) }
    {
        self.events.len() as u64
    }

    /// The event at this place among the events. `None` exactly where there is no such place.
    pub fn event(&self, i: u64) -> Option<Event>
        ensures { result ≡ slice_get (events self.now.deck) i }
    {
        self.events.get(i as usize).copied()
    }

    /// The name of the element at this place of the deck, as an event has it. `None` exactly where there is no such
    /// place.
    pub fn device(&self, place: u32) -> Option<&Name>
        ensures { option_map (λ name. name.now) result
            ≡ option_map name_of (slice_get self.now.deck.elements place) }
    {
        let place = place as usize;
        if place < self.deck.len() {
            Some(deck_cards::name_of(self.deck.element(place)))
        } else {
            None
        }
    }
}
