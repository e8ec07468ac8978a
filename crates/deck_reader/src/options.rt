//! The `.options` card, of which only the grain has an effect.

ghost use Rattle.std.specs.Prelude.{◌≡◌, false, is_none};
ghost use Rattle.deck_reader.specs.Numbers.{Gives};
ghost use Rattle.deck_reader.specs.Dots.{grain_values, options};

use crate::number::number;
use crate::why::DeckWhy;
use crate::words::Words;
use spice_num::Unit;
use std::alloc::Global;

/// Whether the last word is a `grain` that has no value.
#[tactic(auto, using(crate::proofs::GrainLemmas::wants_is), unfolding(crate::proofs::GrainLemmas::wants_value))]
fn wants_value(words: &mut Words<'_>) -> bool
    ensures { result ≡ is_none (grain_values words.old) }
{
    let mut after_grain = false;
    while let Some(word) = words.next() {
        after_grain = !after_grain && word.is("grain");
    }
    after_grain
}

/// The last grain that words say, of which each `grain` has a value.
#[tactic(auto, using(crate::proofs::GrainLemmas::options_is), unfolding(crate::proofs::GrainLemmas::grain_behind))]
fn last_grain(alloc: Global, words: &mut Words<'_>) -> Result<Option<i64>, DeckWhy>
    requires { is_none (grain_values words.old) ≡ false }
    ensures { Gives result (options words.old) }
{
    let mut last = None;
    let mut after_grain = false;
    while let Some(word) = words.next() {
        if after_grain {
            last = Some(number(alloc, &word, Unit::Volt)?);
            after_grain = false;
        } else {
            after_grain = word.is("grain");
        }
    }
    Ok(last)
}

/// The grain in microvolts that the words behind `.options` say, `None` where they say none.
#[tactic(auto, unfolding(crate::specs::Dots::options))]
pub fn options(alloc: Global, words: &mut Words<'_>) -> Result<Option<i64>, DeckWhy>
    ensures { Gives result (options words.old) }
{
    if wants_value(&mut words.copy()) {
        return Err(DeckWhy::WrongWords);
    }
    last_grain(alloc, words)
}
