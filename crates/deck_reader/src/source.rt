//! The voltage of a source, from the words behind its nodes.

ghost use Rattle.std.specs.Prelude.{◌≡◌, ◌<◌, [], length, map, pos, int_le, unsigned_abs, IfOk, IsTrue};
ghost use Rattle.std.specs.List.{list_all};
ghost use Rattle.deck_reader.specs.Numbers.{Gives, GivesItems};
ghost use Rattle.deck_reader.specs.Words.{are_pairs};
ghost use Rattle.deck_reader.specs.Elements.{source};
ghost use Rattle.deck_reader.specs.Sources.{foreign_word, with_points, behind_value, form_of, point, points_of, level_of, form_points, are_rising, source_points, late_points, wave_of};

use crate::number::number;
use crate::why::DeckWhy;
use crate::words::{Word, Words, node_of};
use semantics::{Element, Wave};
use spice_num::{Unit, read_number};
use std::alloc::{AllocError, Global};
use std::marker::Model;

/// The words of a voltage: its value, where one stands before `pwl` or there is no `pwl`, and those
/// of the points behind `pwl`.
#[derive(Drop)]
pub struct Form<'a> {
    pub value: Option<Word<'a>>,
    pub points: Words<'a>,
}

/// The points of a source as its card has them, in picoseconds and microvolts. There is at least
/// one, their times rise, and they may be below 0.
#[derive(Drop)]
pub struct Points {
    points: Vec<(i64, i64)>,
}

impl Model for Points {
    ghost use Rattle.std.specs.Prelude.{◌<◌, ℤ, List, length, IsTrue};
    ghost use Rattle.deck_reader.specs.Sources.{are_rising};

    ghost Value = { List (ℤ × ℤ) };

    ghost view = { λ p. p.points.items };

    ghost invariant = { λ p. (0 < length p.points.items) × IsTrue (are_rising p.points.items) };
}

impl Points {
    /// The voltage with these points. Where a time is below 0, it is the one point of 0 V that no
    /// deck takes, since it stands above the last tick.
    pub fn wave(&self, alloc: Global) -> Result<Wave, AllocError>
        ensures { IfOk result (λ wave. wave ≡ wave_of self.now) }
    {
        wave_of(alloc, &self.points)
    }
}

/// The voltage of these points; where a time is below 0, the one point of 0 V above the last tick.
#[tactic(auto, unfolding(crate::specs::Sources::wave_of))]
fn wave_of(alloc: Global, points: &[(i64, i64)]) -> Result<Wave, AllocError>
    requires some { 0 < length points.now }
    requires rising { IsTrue (are_rising points.now) }
    ensures { IfOk result (λ wave. wave ≡ wave_of points.now) }
{
    if !are_ticks(points) {
        return late_wave(alloc);
    }
    let ticks = ticks_of(alloc, points)?;
    match Wave::pwl(ticks) {
        Ok(wave) => Ok(wave),
        Err(_) => unreachable!(),
    }
}

/// Whether no time is below 0.
fn are_ticks(points: &[(i64, i64)]) -> bool
    ensures { result ≡ list_all (λ p. int_le (pos 0) p.0) points.now }
{
    points.iter().all(|point| 0 <= point.0)
}

/// The points with their times as ticks; no time is below 0.
fn ticks_of(alloc: Global, points: &[(i64, i64)]) -> Result<Vec<(u64, i64)>, AllocError>
    ensures { IfOk result (λ ticks. ticks.items ≡ map (λ p. (unsigned_abs p.0, p.1)) points.now) }
{
    points
        .iter()
        .map(|point| (point.0.unsigned_abs(), point.1))
        .collect(alloc)
}

/// The one point of 0 V above the last tick.
#[tactic(auto, unfolding(semantics::specs::Points::wave_refusal))]
fn late_wave(alloc: Global) -> Result<Wave, AllocError>
    ensures { IfOk result (λ wave. wave ≡ late_points) }
{
    match Wave::pwl(vec![in alloc; (10_000_000_001, 0)]?) {
        Ok(wave) => Ok(wave),
        Err(_) => unreachable!(),
    }
}

/// The first word before `pwl` that is neither `dc` nor directly behind one, and is no voltage.
#[tactic(auto, using(crate::proofs::ForeignLemmas::foreign_is), unfolding(crate::proofs::ForeignLemmas::foreign_from))]
fn foreign_word<'a>(words: &mut Words<'a>) -> Option<Word<'a>>
    ensures { result ≡ foreign_word words.old }
{
    let mut after_dc = false;
    while let Some(word) = words.next() {
        if word.is("pwl") {
            return None;
        }
        let is_dc = word.is("dc");
        if !is_dc && !after_dc && read_number(word.text(), Unit::Volt).is_err() {
            return Some(word);
        }
        after_dc = is_dc;
    }
    None
}

/// Whether words stand in pairs.
#[tactic(auto, unfolding(crate::specs::Words::are_pairs))]
pub fn are_pairs(words: &mut Words<'_>) -> bool
    ensures { result ≡ are_pairs words.old }
{
    while words.next().is_some() {
        if words.next().is_none() {
            return false;
        }
    }
    true
}

/// A value, and the words of at least one point.
fn with_points<'a>(value: Option<Word<'a>>, words: &mut Words<'a>) -> Option<Form<'a>>
    ensures { result ≡ with_points value.entry words.old }
{
    if words.len() == 0 || !are_pairs(&mut words.copy()) {
        return None;
    }
    Some(Form {
        value,
        points: words.copy(),
    })
}

/// A value, and what may stand behind it: nothing, or `pwl` and points.
fn behind_value<'a>(value: Word<'a>, words: &mut Words<'a>) -> Option<Form<'a>>
    ensures { result ≡ behind_value value.entry words.old }
{
    match words.next() {
        None => Some(Form {
            value: Some(value),
            points: words.copy(),
        }),
        Some(word) => {
            if !word.is("pwl") {
                return None;
            }
            with_points(Some(value), words)
        }
    }
}

/// The words of VOLTS, or `dc` VOLTS, or either of these or nothing followed by `pwl` T1 V1 T2 V2 ..
#[tactic(auto, unfolding(crate::specs::Sources::form_of))]
fn form_of<'a>(words: &mut Words<'a>) -> Option<Form<'a>>
    ensures { result ≡ form_of words.old }
{
    let first = words.next()?;
    if first.is("pwl") {
        return with_points(None, words);
    }
    if first.is("dc") {
        let value = words.next()?;
        return behind_value(value, words);
    }
    behind_value(first, words)
}

/// The point of these words.
#[tactic(auto, unfolding(crate::specs::Sources::point))]
fn point(alloc: Global, time: &Word<'_>, volts: &Word<'_>) -> Result<(i64, i64), DeckWhy>
    ensures { Gives result (point time.now volts.now) }
{
    let tick = number(alloc, time, Unit::Time)?;
    let level = number(alloc, volts, Unit::Volt)?;
    Ok((tick, level))
}

/// The points that words say.
#[tactic(auto, using(crate::proofs::BehindLemmas::behind_nothing), unfolding(crate::specs::Sources::points_of, crate::proofs::BehindLemmas::behind))]
fn points_of(alloc: Global, words: &mut Words<'_>) -> Result<Vec<(i64, i64)>, DeckWhy>
    ensures { GivesItems result (points_of words.old) }
{
    let mut points = Vec::with_capacity(alloc, words.len() / 2)?;
    while let Some(time) = words.next() {
        let Some(volts) = words.next() else {
            break;
        };
        points.push(point(alloc, &time, &volts)?)?;
    }
    Ok(points)
}

/// The value of a form; 0 where it has none.
#[tactic(auto, unfolding(crate::specs::Sources::level_of))]
fn level_of(alloc: Global, value: &Option<Word<'_>>) -> Result<i64, DeckWhy>
    ensures { Gives result (level_of value.now) }
{
    match value {
        None => Ok(0),
        Some(word) => number(alloc, word, Unit::Volt),
    }
}

/// The points of a form: those behind `pwl`, and else its value from time 0 on.
#[tactic(auto, unfolding(crate::specs::Sources::form_points))]
fn form_points(alloc: Global, form: &mut Form<'_>) -> Result<Vec<(i64, i64)>, DeckWhy>
    ensures { GivesItems result (form_points form.old) }
{
    let level = level_of(alloc, &form.value)?;
    if form.points.len() == 0 {
        return Ok(vec![in alloc; (0, level)]?);
    }
    points_of(alloc, &mut form.points)
}

/// Whether each time is above the one before it.
fn are_rising(points: &[(i64, i64)]) -> bool
    ensures { result ≡ are_rising points.now }
{
    let after = points.iter().skip(1);
    points
        .iter()
        .zip(after)
        .all(|(before, after)| before.0 < after.0)
}

/// The points that the words behind the nodes of a source say.
#[tactic(auto, unfolding(crate::specs::Sources::source_points))]
pub fn source_points(alloc: Global, words: &mut Words<'_>) -> Result<Points, DeckWhy>
    ensures { Gives result (source_points words.old) }
{
    if let Some(word) = foreign_word(&mut words.copy()) {
        return Err(DeckWhy::Unsupported(word.to_name(alloc)?));
    }
    let Some(mut form) = form_of(words) else {
        return Err(DeckWhy::WrongWords);
    };
    let points = form_points(alloc, &mut form)?;
    if !are_rising(&points) {
        return Err(DeckWhy::TimesNotRising);
    }
    Ok(Points { points })
}

/// The card `vNAME NODE NODE` and the words of its voltage.
#[tactic(auto, unfolding(crate::specs::Elements::source))]
pub fn source(alloc: Global, words: &mut Words<'_>) -> Result<Element, DeckWhy>
    ensures { Gives result (source words.old) }
{
    let name = words.next().ok_or(DeckWhy::WrongWords)?;
    let plus = words.next().ok_or(DeckWhy::WrongWords)?;
    let minus = words.next().ok_or(DeckWhy::WrongWords)?;
    let points = source_points(alloc, words)?;
    Ok(Element::Source {
        name: name.to_name(alloc)?,
        plus: node_of(alloc, &plus)?,
        minus: node_of(alloc, &minus)?,
        wave: points.wave(alloc)?,
    })
}
