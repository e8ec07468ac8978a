//! The `.ic` card: initial voltages.

ghost use Rattle.std.specs.Prelude.{◌≡◌, ◌&&◌, [], true, IfOk, OnOk};
ghost use Rattle.std.specs.List.{list_any};
ghost use Rattle.std.specs.Str.{bytes_eq};
ghost use Rattle.deck_reader.specs.Numbers.{Gives, GivesItems};
ghost use Rattle.deck_reader.specs.Dots.{are_triples, voltage, voltages_of};
ghost use Rattle.deck_reader.specs.Told.{with_initial, voltage_limit};
ghost use Rattle.deck_reader.specs.Voltages.{held};
ghost use Rattle.deck_cards.specs.Settled.{put};
ghost use Rattle.semantics.specs.Valid.{small_volts};

use crate::index::note_name;
use crate::number::number;
use crate::why::DeckWhy;
use crate::words::{Word, Words, node_of};
use deck_cards::{Which, limits};
use indexmap::{IndexMap, IndexSet};
use semantics::Name;
use spice_num::Unit;
use std::alloc::{AllocError, Global};
use std::marker::Model;

/// Whether words stand in triples of `v`, a node and a voltage.
#[tactic(auto, unfolding(crate::specs::Dots::are_triples))]
fn are_triples(words: &mut Words<'_>) -> bool
    ensures { result ≡ are_triples words.old }
{
    while let Some(key) = words.next() {
        let Some(_) = words.next() else {
            return false;
        };
        if words.next().is_none() || !key.is("v") {
            return false;
        }
    }
    true
}

/// The node and the voltage of these words.
#[tactic(auto, unfolding(crate::specs::Dots::voltage))]
fn voltage(alloc: Global, name: &Word<'_>, volts: &Word<'_>) -> Result<(Name, i64), DeckWhy>
    ensures { Gives result (voltage name.now volts.now) }
{
    let level = number(alloc, volts, Unit::Volt)?;
    Ok((node_of(alloc, name)?, level))
}

/// The voltages that triples say.
#[tactic(auto, using(crate::proofs::BehindLemmas::behind_nothing), unfolding(crate::specs::Dots::voltages_of, crate::proofs::BehindLemmas::behind))]
fn voltages_of(alloc: Global, words: &mut Words<'_>) -> Result<Vec<(Name, i64)>, DeckWhy>
    ensures { GivesItems result (voltages_of words.old) }
{
    let mut voltages = Vec::with_capacity(alloc, words.len() / 3)?;
    while let Some(_) = words.next() {
        let Some(name) = words.next() else {
            break;
        };
        let Some(volts) = words.next() else {
            break;
        };
        voltages.push(voltage(alloc, &name, &volts)?)?;
    }
    Ok(voltages)
}

/// The voltages that words leave of those before them, and whether each that was read is in its
/// limit.
#[derive(Drop)]
struct Held {
    voltages: IndexMap<Name, i64>,
    are_small: bool,
}

impl Model for Held {
    ghost use Rattle.std.specs.Prelude.{ℕ, ℤ, List, Bool};

    ghost Value = { List (List ℕ × ℤ) × Bool };

    ghost view = { λ h. (h.voltages.entries, h.are_small) };
}

/// Whether a voltage is in its limit.
fn is_small(volts: &i64) -> bool
    ensures { result ≡ small_volts volts.now }
{
    limits::is_small(*volts)
}

/// Puts a voltage: it takes the place of that of the same node, or stands last.
fn put(voltages: &mut IndexMap<Name, i64>, node: Name, volts: i64) -> Result<(), AllocError>
    ensures { OnOk result (voltages.new.entries ≡ put voltages.old.entries (node, volts)) }
{
    voltages.insert(node, volts)?;
    Ok(())
}

impl Held {
    /// Puts a voltage: it takes the place of that of the same node, or stands last.
    fn put(&mut self, voltage: (Name, i64)) -> Result<(), AllocError>
        ensures { OnOk result (self.new ≡ (put self.old.0 voltage, self.old.1 && small_volts voltage.1)) }
    {
        let (node, volts) = voltage;
        self.are_small = self.are_small && is_small(&volts);
        put(&mut self.voltages, node, volts)
    }
}

/// The voltages that triples leave of those before them.
#[tactic(auto, unfolding(crate::specs::Voltages::held, crate::specs::Dots::voltages_of))]
fn hold(alloc: Global, before: IndexMap<Name, i64>, words: &mut Words<'_>) -> Result<Held, DeckWhy>
    ensures { Gives result (held before.entries true words.old) }
{
    let mut held = Held {
        voltages: before,
        are_small: true,
    };
    while let Some(_) = words.next() {
        let Some(name) = words.next() else {
            break;
        };
        let Some(value) = words.next() else {
            break;
        };
        held.put(voltage(alloc, &name, &value)?)?;
    }
    Ok(held)
}

/// The initial voltages that the cards of a deck have said so far, each with its node.
#[derive(Drop)]
pub struct Voltages {
    voltages: IndexMap<Name, i64>,
}

impl Model for Voltages {
    ghost use Rattle.std.specs.Prelude.{ℕ, ℤ, List};

    ghost Value = { List (List ℕ × ℤ) };

    ghost view = { λ v. v.voltages.entries };
}

impl Voltages {
    /// None.
    pub fn new(alloc: Global) -> Voltages
        ensures { result ≡ [] }
    {
        Voltages {
            voltages: IndexMap::new(alloc),
        }
    }

    /// These voltages and those of the words behind `.ic`.
    pub fn with_initial(self, alloc: Global, words: &mut Words<'_>) -> Result<Voltages, DeckWhy>
        ensures { Gives result (with_initial self words.old) }
    {
        if !are_triples(&mut words.copy()) {
            return Err(DeckWhy::WrongWords);
        }
        let Held {
            voltages,
            are_small,
        } = hold(alloc, self.voltages, &mut words.copy())?;
        if !are_small {
            // Which of them is told is found out by their list.
            let list = voltages_of(alloc, words)?;
            if let Some(why) = voltage_limit(alloc, &list)? {
                return Err(why);
            }
        }
        Ok(Voltages { voltages })
    }

    /// The voltages, each with its node.
    pub fn into_pairs(self, alloc: Global) -> Result<Vec<(Name, i64)>, AllocError>
        ensures { IfOk result (λ pairs. pairs.items ≡ self) }
    {
        self.voltages.into_iter().collect(alloc)
    }
}

/// Whether this name is among those of voltages that were looked at.
fn is_named(names: &IndexSet<Name>, name: &Name) -> bool
    ensures { result ≡ list_any (bytes_eq name.now) names.now.keys }
{
    names.contains(name)
}

/// The first voltage outside its limit; one whose node stands again behind it is not looked at.
fn voltage_limit(alloc: Global, voltages: &[(Name, i64)]) -> Result<Option<DeckWhy>, AllocError>
    ensures { IfOk result (λ limit. limit ≡ voltage_limit voltages.now) }
{
    let mut later = IndexSet::new(alloc);
    let mut found = None;
    let mut left = voltages.len();
    while left > 0 {
        left -= 1;
        let (name, volts) = &voltages[left];
        if !is_named(&later, name) {
            note_name(&mut later, name)?;
            if !is_small(volts) {
                found = Some(name);
            }
        }
    }
    match found {
        None => Ok(None),
        Some(name) => Ok(Some(DeckWhy::Limit(Which::Volts, name.copy()?))),
    }
}
