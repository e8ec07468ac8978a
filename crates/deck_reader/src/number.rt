//! Words that are numbers.

ghost use Rattle.deck_reader.specs.Numbers.{Gives, GivesItems, number, numbers};

use crate::why::DeckWhy;
use crate::words::{Word, Words};
use spice_num::{Unit, read_number};
use std::alloc::Global;

/// The whole number of the unit that a word says, of at most 18 digits.
#[tactic(auto, unfolding(crate::specs::Numbers::number))]
pub fn number(alloc: Global, word: &Word<'_>, unit: Unit) -> Result<i64, DeckWhy>
    ensures { Gives result (number unit word.now) }
{
    match read_number(word.text(), unit) {
        Ok(value) => Ok(value as i64),
        Err(_) => Err(DeckWhy::BadNumber(word.to_name(alloc)?)),
    }
}

/// The numbers that words say, in order.
#[tactic(auto, using(crate::proofs::BehindLemmas::behind_nothing, crate::proofs::BehindLemmas::numbers_next), unfolding(crate::specs::Numbers::numbers, crate::proofs::BehindLemmas::behind))]
pub fn numbers(alloc: Global, words: &mut Words<'_>, unit: Unit) -> Result<Vec<i64>, DeckWhy>
    ensures { GivesItems result (numbers unit words.old) }
{
    let mut found = Vec::with_capacity(alloc, words.len())?;
    while let Some(word) = words.next() {
        found.push(number(alloc, &word, unit)?)?;
    }
    Ok(found)
}
