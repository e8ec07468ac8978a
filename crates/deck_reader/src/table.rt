//! The `.table` card: the thresholds of gate and drain, and the currents.

ghost use Rattle.std.specs.Prelude.{◌≡◌, true, None};
ghost use Rattle.semantics.specs.Valid.{rising, is_grid};
ghost use Rattle.semantics.specs.Part as part;
ghost use Rattle.deck_cards.specs.Causes.{part_limit};
ghost use Rattle.deck_cards.specs.Part.{part_of};
ghost use Rattle.deck_reader.specs.Numbers.{Gives};
ghost use Rattle.deck_reader.specs.Tables.{lists_of, table_of, table_fault};

use crate::number::numbers;
use crate::why::DeckWhy;
use crate::words::Words;
use deck_cards::{Part, Which, limits};
use device_tables::{Grid, Table};
use spice_num::Unit;
use std::alloc::Global;
use std::marker::Model;

/// The words of the three lists of a table.
#[derive(Drop)]
pub struct Lists<'a> {
    pub gate: Words<'a>,
    pub drain: Words<'a>,
    pub amps: Words<'a>,
}

/// The thresholds of gate and drain in microvolts, and the currents in picoamperes, as a card has
/// them: the thresholds rise, and there is one current for each pair of cells.
#[derive(Drop)]
pub struct Listed {
    gate: Vec<i64>,
    drain: Vec<i64>,
    amps: Vec<i64>,
}

impl Model for Listed {
    ghost use Rattle.std.specs.Prelude.{◌≡◌, None};
    ghost use Rattle.device_tables.specs.Table.{TableValue};
    ghost use Rattle.deck_reader.specs.Tables.{table_fault};

    ghost Value = { TableValue };

    ghost view = { λ t. record { gate = t.gate.items; drain = t.drain.items; amps = t.amps.items } };

    ghost invariant = { λ t. table_fault t.gate.items t.drain.items t.amps.items ≡ None };
}

impl Listed {
    /// What the first threshold or current that is outside its limit is of.
    #[tactic(auto, unfolding(deck_cards::specs::Causes::part_limit))]
    pub fn limit(&self) -> Option<Which>
        ensures { result ≡ part_limit (part.Listed self.now.gate self.now.drain self.now.amps) }
    {
        if !limits::are_small_volts(&self.gate) || !limits::are_small_volts(&self.drain) {
            return Some(Which::Volts);
        }
        if !limits::are_some_amps(&self.amps) {
            return Some(Which::Amps);
        }
        None
    }

    /// The part of these thresholds and currents, of which none is outside its limit.
    pub fn into_part(self) -> Part
        requires { part_limit (part.Listed self.gate self.drain self.amps) ≡ None }
        ensures { part_of result ≡ part.Listed self.gate self.drain self.amps }
    {
        let Listed { gate, drain, amps } = self;
        match Table::explicit(grid_of(gate), grid_of(drain), amps) {
            Ok(table) => Part::Listed(table),
            Err(_) => unreachable!(),
        }
    }
}

/// The grid of thresholds that rise, of which there are few, each of them small.
fn grid_of(thresholds: Vec<i64>) -> Grid
    requires { is_grid thresholds.items ≡ true }
    ensures { result ≡ thresholds.items }
{
    match Grid::of_list(thresholds) {
        Ok(grid) => grid,
        Err(_) => unreachable!(),
    }
}

/// The words of the three lists: those behind `gate`, behind the first `drain` after it, and behind
/// the first `amps` after that.
#[tactic(auto, unfolding(crate::specs::Tables::lists_of))]
fn lists_of<'a>(words: &mut Words<'a>) -> Option<Lists<'a>>
    ensures { result ≡ lists_of words.old }
{
    let first = words.next()?;
    if !first.is("gate") {
        return None;
    }
    let gates = words.find("drain")?;
    let behind = words.behind(gates + 1);
    let drains = behind.find("amps")?;
    Some(Lists {
        gate: words.front(gates),
        drain: behind.front(drains),
        amps: behind.behind(drains + 1),
    })
}

/// Whether each threshold is above the one before it.
fn are_rising(thresholds: &[i64]) -> bool
    ensures { result ≡ rising thresholds.now }
{
    let mut left = thresholds;
    while let [low, high, ..] = left {
        if low >= high {
            return false;
        }
        left = &left[1..];
    }
    true
}

/// Why these lists are no table: over 256 thresholds, thresholds that do not rise, or another number
/// of currents than one for each pair of cells.
#[tactic(auto, unfolding(crate::specs::Tables::table_fault))]
fn table_fault(gate: &[i64], drain: &[i64], amps: &[i64]) -> Option<DeckWhy>
    ensures { result ≡ table_fault gate.now drain.now amps.now }
{
    if gate.len() > 256 || drain.len() > 256 {
        return Some(DeckWhy::TooManyThresholds);
    }
    if !are_rising(gate) || !are_rising(drain) {
        return Some(DeckWhy::NotRising);
    }
    if amps.len() != (gate.len() + 1) * (drain.len() + 1) {
        return Some(DeckWhy::WrongCount);
    }
    None
}

/// The table that the words behind its name say.
#[tactic(auto, unfolding(crate::specs::Tables::table_of))]
pub fn table_of(alloc: Global, words: &mut Words<'_>) -> Result<Listed, DeckWhy>
    ensures { Gives result (table_of words.old) }
{
    let Some(mut lists) = lists_of(words) else {
        return Err(DeckWhy::WrongWords);
    };
    let gate = numbers(alloc, &mut lists.gate, Unit::Volt)?;
    let drain = numbers(alloc, &mut lists.drain, Unit::Volt)?;
    let amps = numbers(alloc, &mut lists.amps, Unit::Amp)?;
    match table_fault(&gate, &drain, &amps) {
        Some(why) => Err(why),
        None => Ok(Listed { gate, drain, amps }),
    }
}
