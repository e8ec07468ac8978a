//! Words that are numbers.

ghost use Rattle.deck_reader.specs.Numbers.{number};
ghost use Rattle.wave_script.specs.Answers.{Says, value};
ghost use Rattle.wave_script.specs.Requests.{tick, range};

use crate::why::ScriptWhy;
use deck_reader::Word;
use spice_num::{Unit, read_number};
use std::alloc::Global;

/// The whole number of the unit that a word says, of at most 18 digits.
#[tactic(auto, unfolding(deck_reader::specs::Numbers::number))]
pub fn value(alloc: Global, word: &Word<'_>, unit: Unit) -> Result<i64, ScriptWhy>
    ensures { Says result (value unit word.now) }
{
    match read_number(word.text(), unit) {
        Ok(value) => Ok(value as i64),
        Err(_) => Err(ScriptWhy::BadNumber(word.to_name(alloc)?)),
    }
}

/// The tick that a word says.
#[tactic(auto, unfolding(crate::specs::Requests::tick))]
fn tick(alloc: Global, word: &Word<'_>) -> Result<u64, ScriptWhy>
    ensures { Says result (tick word.now) }
{
    let time = value(alloc, word, Unit::Time)?;
    if 0 <= time {
        return Ok(time.unsigned_abs());
    }
    Err(ScriptWhy::BadNumber(word.to_name(alloc)?))
}

/// Two ticks that words say, of which the first is not above the second.
#[tactic(auto, unfolding(crate::specs::Requests::range))]
pub fn range(alloc: Global, first: &Word<'_>, last: &Word<'_>) -> Result<(u64, u64), ScriptWhy>
    ensures { Says result (range first.now last.now) }
{
    let from = tick(alloc, first)?;
    let to = tick(alloc, last)?;
    if from <= to {
        return Ok((from, to));
    }
    Err(ScriptWhy::WrongWords)
}
