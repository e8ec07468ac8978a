//! The values of a deck, tested against their limits in one order.

ghost use Rattle.std.specs.Prelude.{◌≡◌, ℕ, List, true, None, map, IfNone, OnOk};
ghost use Rattle.std.specs.List.{list_all};
ghost use Rattle.semantics.specs.Deck.{name_of, first_some};
ghost use Rattle.semantics.specs.Part as part;
ghost use Rattle.semantics.specs.Valid.{small_volts, is_source, is_part, in_limits};
ghost use Rattle.deck_cards.specs.Answers.{Answers};
ghost use Rattle.deck_cards.specs.Cards.{deck_of};
ghost use Rattle.deck_cards.specs.Causes.{limit, outside, limited, part_limit, point_limit, element_limit, value_limit};
ghost use Rattle.deck_cards.specs.Part.{part_of};
ghost use Rattle.deck_cards.specs.declared.which.Which.TheVariants as which_of;

use crate::edit_refusal::EditRefusal;
use crate::limits;
use crate::part::Part;
use crate::settled::Settled;
use crate::which::Which;
use device_tables::Table;
use indexmap::IndexMap;
use semantics::{Channel, Element, Name, Wave};
use std::alloc::Global;

/// Refuses a value that is not within its limit.
pub fn check(within: bool, which: Which, name: &Name) -> Result<(), EditRefusal>
    ensures { Answers result (limit within which name.now) }
{
    if !within {
        return Err(EditRefusal::Limit(which, name.copy()?));
    }
    Ok(())
}

/// What a value is of that is outside its limit.
fn outside(within: bool, which: Which) -> Option<Which>
    ensures { result ≡ outside within which }
{
    if within { None } else { Some(which) }
}

/// What the first value of a table outside its limit is of: there is none, by its type.
#[tactic(auto, using(crate::proofs::Within::part_none))]
fn table_limit(table: &Table) -> Option<Which>
    ensures value { result ≡ part_limit (part.Listed table.now.gate table.now.drain table.now.amps) }
    ensures valid { IfNone result (is_part (part.Listed table.now.gate table.now.drain table.now.amps) ≡ true) }
{
    // A table says with its grids that it is valid.
    let _grid = table.gate();
    None
}

/// What the first value of a model outside its limit is of.
#[tactic(auto, unfolding(crate::specs::Causes::part_limit))]
fn level_limit(channel: Channel, vto: i64, kp: i64) -> Option<Which>
    ensures value { result ≡ part_limit (part.Level channel vto kp) }
    ensures valid { IfNone result (is_part (part.Level channel vto kp) ≡ true) }
{
    if !limits::is_small_vto(vto) {
        return Some(Which::Volts);
    }
    outside(limits::is_some_gain(kp), Which::Gain)
}

/// What the first value of a part outside its limit is of.
fn part_limit(part: &Part) -> Option<Which>
    ensures value { result ≡ part_limit (part_of part.now) }
    ensures valid { IfNone result (is_part (part_of part.now) ≡ true) }
{
    match part {
        Part::Level { channel, vto, kp } => level_limit(*channel, *vto, *kp),
        Part::Listed(table) => table_limit(table),
    }
}

/// Refuses a value of this name, where one is outside its limit.
pub fn refuse(name: &Name, which: Option<Which>) -> Result<(), EditRefusal>
    ensures cause { Answers result (limited name.now which) }
    ensures none { OnOk result (which ≡ None) }
{
    match which {
        None => Ok(()),
        Some(which) => Err(EditRefusal::Limit(which, name.copy()?)),
    }
}

/// Refuses the first part with a value outside its limit.
fn check_parts(parts: &IndexMap<Name, Part>) -> Result<(), EditRefusal>
    ensures cause { Answers result (first_some (λ (p : List ℕ × part.Part). limited p.0 (part_limit p.1)) (map (λ p. (p.0, part_of p.1)) parts.now.entries)) }
    ensures valid { OnOk result (list_all (λ p. is_part (part_of p.1)) parts.now.entries ≡ true) }
{
    for (name, part) in parts.iter() {
        refuse(name, part_limit(part))?;
    }
    Ok(())
}

/// Refuses the first initial voltage outside its limit.
fn check_initial(voltages: &IndexMap<Name, i64>) -> Result<(), EditRefusal>
    ensures { Answers result (first_some (λ p. limit (small_volts p.1) which_of.Volts p.0) voltages.now.entries) }
{
    for (name, volts) in voltages.iter() {
        check(limits::is_small(*volts), Which::Volts, name)?;
    }
    Ok(())
}

/// What a point of a source is of that is outside its limits: its time first, then its voltage.
fn point_limit(point: &(u64, i64)) -> Option<Which>
    ensures { result ≡ point_limit point.now }
{
    if !limits::is_short(point.0) {
        return Some(Which::Seconds);
    }
    outside(limits::is_small(point.1), Which::Volts)
}

/// What the first point of a source outside its limits is of.
pub fn wave_limit(wave: &Wave) -> Option<Which>
    ensures value { result ≡ first_some point_limit wave.now }
    ensures valid { IfNone result (is_source wave.now ≡ true) }
{
    for point in wave.points() {
        if let Some(which) = point_limit(point) {
            return Some(which);
        }
    }
    None
}

/// What the first value of an element outside its limit is of, by its place on the card.
#[tactic(auto, unfolding(crate::specs::Causes::element_limit))]
pub fn element_limit(element: &Element) -> Option<Which>
    ensures value { result ≡ element_limit element.now }
    ensures valid { IfNone result (in_limits element.now ≡ true) }
{
    match element {
        Element::Resistor { ohms, .. } => outside(limits::is_some_ohms(*ohms), Which::Ohms),
        Element::Capacitor { farads, .. } => {
            outside(limits::is_some_farads(*farads), Which::Farads)
        }
        Element::Source { wave, .. } => wave_limit(wave),
        Element::Mos { length, width, .. } => {
            let within = limits::is_some_metres(*length) && limits::is_some_metres(*width);
            outside(within, Which::Metres)
        }
    }
}

/// Refuses the first element with a value outside its limit.
fn check_elements(elements: &[Element]) -> Result<(), EditRefusal>
    ensures cause { Answers result (first_some (λ e. limited (name_of e) (element_limit e)) elements.now) }
    ensures valid { OnOk result (list_all in_limits elements.now ≡ true) }
{
    for element in elements {
        refuse(element.name(), element_limit(element))?;
    }
    Ok(())
}

/// Refuses the first value outside its limit: stop tick, grain, parts, initial voltages, elements.
#[tactic(auto, using(crate::proofs::Firsts::refuses_first, crate::proofs::Firsts::refuses_next), unfolding(crate::specs::Causes::value_limit))]
pub fn check_values(alloc: Global, cards: &Settled) -> Result<(), EditRefusal>
    ensures cause { Answers result (value_limit (deck_of cards.now)) }
    ensures parts { OnOk result (list_all (λ p. is_part (part_of p.1)) cards.now.parts.entries ≡ true) }
    ensures elements { OnOk result (list_all in_limits cards.now.elements.items ≡ true) }
{
    let stop = Name::of(alloc, b".tran")?;
    check(limits::is_short(cards.stop), Which::Seconds, &stop)?;
    let grain = Name::of(alloc, b".options")?;
    check(
        limits::is_some_grain(u64::from(cards.grain)),
        Which::Grain,
        &grain,
    )?;
    check_parts(&cards.parts)?;
    check_initial(&cards.initial)?;
    check_elements(&cards.elements)
}
