//! The `.tran` card: the stop tick.

ghost use Rattle.std.specs.Prelude.{◌≡◌, codes};
ghost use Rattle.deck_reader.specs.Numbers.{Gives};
ghost use Rattle.deck_reader.specs.Words.{ends_with};
ghost use Rattle.deck_reader.specs.Dots.{times_of, second, tran};

use crate::number::numbers;
use crate::why::DeckWhy;
use crate::words::Words;
use spice_num::Unit;
use std::alloc::Global;

/// How long a deck is run.
#[derive(Clone, Copy)]
pub struct Span {
    /// The last tick, in picoseconds, which may be outside its limit.
    pub stop: i64,
    /// Whether a free node without an initial voltage begins at 0.
    pub uic: bool,
}

/// Whether `uic` stands last.
fn ends_with_uic(words: &Words<'_>) -> bool
    ensures { result ≡ ends_with words.now (codes "uic") }
{
    match words.get(words.len().saturating_sub(1)) {
        None => false,
        Some(word) => word.is("uic"),
    }
}

/// The words without a last `uic`.
fn times_of<'a>(words: &Words<'a>) -> Words<'a>
    ensures { result ≡ times_of words.now }
{
    if ends_with_uic(words) {
        words.front(words.len().saturating_sub(1))
    } else {
        words.copy()
    }
}

/// The second of these times, 0 where there is none.
fn second(times: &[i64]) -> i64
    ensures { result ≡ second times.now }
{
    match times {
        [_, stop, ..] => *stop,
        _ => 0,
    }
}

/// The words behind `.tran`: TSTEP, TSTOP, TSTART and TMAX or not, and `uic` or not.
#[tactic(auto, unfolding(crate::specs::Dots::tran))]
pub fn tran(alloc: Global, words: &mut Words<'_>) -> Result<Span, DeckWhy>
    ensures { Gives result (tran words.old) }
{
    let mut times = times_of(words);
    if times.len() < 2 || 4 < times.len() {
        return Err(DeckWhy::WrongWords);
    }
    let ticks = numbers(alloc, &mut times, Unit::Time)?;
    Ok(Span {
        stop: second(&ticks),
        uic: ends_with_uic(words),
    })
}
