//! The cards of elements.

ghost use Rattle.std.specs.Prelude.{drop};
ghost use Rattle.deck_reader.specs.Numbers.{Gives};
ghost use Rattle.deck_reader.specs.Elements.{element};
ghost use Rattle.deck_reader.specs.Lines.{element_at, wave_at};

use crate::capacitor::capacitor;
use crate::device::device;
use crate::resistor::resistor;
use crate::source::{source, source_points};
use crate::why::DeckWhy;
use crate::words::Words;
use deck_lexer::CardLine;
use semantics::{Element, Wave};
use std::alloc::Global;

/// The element of these words. The first letter of its name says its kind.
#[tactic(auto, unfolding(crate::specs::Elements::element))]
pub fn element(alloc: Global, words: &mut Words<'_>) -> Result<Element, DeckWhy>
    ensures { Gives result (element words.old) }
{
    let name = words.get(0).ok_or(DeckWhy::WrongWords)?;
    if name.begins_with(b'r') {
        return resistor(alloc, words);
    }
    if name.begins_with(b'c') {
        return capacitor(alloc, words);
    }
    if name.begins_with(b'v') {
        return source(alloc, words);
    }
    if name.begins_with(b'm') {
        return device(alloc, words);
    }
    Err(DeckWhy::Unsupported(name.to_name(alloc)?))
}

/// The element that the words of a line say, from the place `from` on: a resistor, a capacitor, a
/// source or a device. Its values are not tested for their limits. A source of which a time is below
/// 0 has the one point of 0 V at the tick above the last that a deck takes.
///
/// # Errors
///
/// The first of `Unsupported`, `WrongWords`, `BadNumber` and `TimesNotRising` that holds, in this
/// order, or `Memory`.
#[tactic(auto, unfolding(crate::specs::Lines::element_at))]
pub fn read_element(alloc: Global, line: &CardLine, from: usize) -> Result<Element, DeckWhy>
    ensures { Gives result (element_at line.now from) }
{
    element(alloc, &mut Words::of(line, from))
}

/// The voltage that the words of a line say, from the place `from` on: those of the card of a source
/// behind its nodes. Its values are not tested for their limits. Where a time is below 0, it is the
/// one point of 0 V at the tick above the last that a deck takes.
///
/// # Errors
///
/// The first of `Unsupported`, `WrongWords`, `BadNumber` and `TimesNotRising` that holds, in this
/// order, or `Memory`.
#[tactic(auto, unfolding(crate::specs::Lines::wave_at))]
pub fn read_wave(alloc: Global, line: &CardLine, from: usize) -> Result<Wave, DeckWhy>
    ensures { Gives result (wave_at line.now from) }
{
    let points = source_points(alloc, &mut Words::of(line, from))?;
    Ok(points.wave(alloc)?)
}
