ghost use Rattle.std.specs.Prelude.{◌≡◌, ◌+◌, ◌<◌, ◌^◌, length, drop, position, not, unsigned_abs, nat_le, int_le, IsTrue, IfSome};
ghost use Rattle.std.specs.List.{zip};
ghost use Rattle.semantics.specs.Valid.{small_volts, rising};
ghost use Rattle.device_tables.specs.Refusal.{too_many, too_large, not_rising, wrong_count, large_current, grid_refusal, table_refusal};

use crate::grid::Grid;

/// The most thresholds of a grid that is given as a list.
const MOST_THRESHOLDS: usize = 256;

/// The largest threshold in size, 1,000 V in µV.
const MOST_VOLTS: u64 = 1_000_000_000;

/// The largest current in size, 1 A in pA.
const MOST_AMPS: u64 = 1_000_000_000_000;

/// Why a list of thresholds is no grid, or a list of currents no table, by the first cause that holds in this order. A
/// place counts from 0.
#[derive(Clone, Copy, Debug, PartialEq, Eq)]
pub enum TableRefusal {
    /// There are so many thresholds, more than 256.
    TooManyThresholds(u32),
    /// The first threshold that is over 1,000 V in size.
    ThresholdTooLarge(u32),
    /// The first threshold that is not above the one before it.
    NotRising(u32),
    /// The currents are not as many as there are pairs of a gate cell and a drain cell.
    WrongCount { needed: u32, given: u32 },
    /// The first current that is over 1 A in size.
    CurrentTooLarge(u32),
}

/// Why these thresholds are no grid, if they are none.
#[tactic(auto, unfolding(crate::specs::Refusal::grid_refusal))]
pub fn grid_refusal(thresholds: &[i64]) -> Option<TableRefusal>
    requires { length thresholds.now < 2 ^ 32 }
    ensures { result ≡ grid_refusal thresholds.now }
{
    too_many(thresholds)
        .or(too_large(thresholds))
        .or(not_rising(thresholds))
}

#[tactic(auto, unfolding(crate::specs::Refusal::too_many))]
fn too_many(thresholds: &[i64]) -> Option<TableRefusal>
    requires { length thresholds.now < 2 ^ 32 }
    ensures { result ≡ too_many thresholds.now }
{
    (thresholds.len() > MOST_THRESHOLDS).then_some(TableRefusal::TooManyThresholds(
        thresholds.len() as u32,
    ))
}

#[tactic(auto, unfolding(crate::specs::Refusal::too_large))]
fn too_large(thresholds: &[i64]) -> Option<TableRefusal>
    requires { length thresholds.now < 2 ^ 32 }
    ensures { result ≡ too_large thresholds.now }
{
    let place = first_large(thresholds)?;
    Some(TableRefusal::ThresholdTooLarge(place as u32))
}

/// The place of the first threshold that is over 1,000 V in size.
fn first_large(thresholds: &[i64]) -> Option<usize>
    ensures place { result ≡ position (λ volts. not (small_volts volts)) thresholds.now }
    ensures bound { IfSome result (λ place. place < length thresholds.now) }
{
    thresholds.iter().position(|volts| !is_small(*volts))
}

/// At most 1,000 V in size.
fn is_small(volts: i64) -> bool
    ensures { result ≡ small_volts volts }
{
    volts.unsigned_abs() <= MOST_VOLTS
}

#[tactic(auto, unfolding(crate::specs::Refusal::not_rising))]
fn not_rising(thresholds: &[i64]) -> Option<TableRefusal>
    requires { length thresholds.now < 2 ^ 32 }
    ensures { result ≡ not_rising thresholds.now }
{
    let before = first_not_below_next(thresholds)?;
    Some(TableRefusal::NotRising(before as u32 + 1))
}

/// The place of the first threshold that is not below the one after it.
fn first_not_below_next(thresholds: &[i64]) -> Option<usize>
    ensures place { result ≡ position (λ pair. int_le pair.1 pair.0) (zip thresholds.now (drop 1 thresholds.now)) }
    ensures bound { IfSome result (λ place. place + 1 < length thresholds.now) }
{
    let after = thresholds.iter().skip(1);
    thresholds
        .iter()
        .zip(after)
        .position(|(low, high)| high <= low)
}

/// Why these grids and currents are no table, if they are none.
#[tactic(auto, unfolding(crate::specs::Refusal::table_refusal))]
pub fn table_refusal(gate: &Grid, drain: &Grid, amps: &[i64]) -> Option<TableRefusal>
    requires gate { length gate.now < 2 ^ 15 }
    requires drain { length drain.now < 2 ^ 15 }
    requires amps { length amps.now < 2 ^ 32 }
    ensures refusal { result ≡ table_refusal gate.now drain.now amps.now }
    ensures gate { IsTrue (rising gate.now) }
    ensures drain { IsTrue (rising drain.now) }
{
    wrong_count(gate, drain, amps).or(large_current(amps))
}

#[tactic(auto, unfolding(crate::specs::Refusal::wrong_count))]
fn wrong_count(gate: &Grid, drain: &Grid, amps: &[i64]) -> Option<TableRefusal>
    requires gate { length gate.now < 2 ^ 15 }
    requires drain { length drain.now < 2 ^ 15 }
    requires amps { length amps.now < 2 ^ 32 }
    ensures refusal { result ≡ wrong_count gate.now drain.now amps.now }
    ensures gate { IsTrue (rising gate.now) }
    ensures drain { IsTrue (rising drain.now) }
{
    let needed = (gate.len() + 1) * (drain.len() + 1);
    let given = amps.len() as u32;
    (given != needed).then_some(TableRefusal::WrongCount { needed, given })
}

#[tactic(auto, unfolding(crate::specs::Refusal::large_current))]
fn large_current(amps: &[i64]) -> Option<TableRefusal>
    requires { length amps.now < 2 ^ 32 }
    ensures { result ≡ large_current amps.now }
{
    let place = first_large_current(amps)?;
    Some(TableRefusal::CurrentTooLarge(place as u32))
}

/// The place of the first current that is over 1 A in size.
fn first_large_current(amps: &[i64]) -> Option<usize>
    ensures place { result ≡ position (λ z. not (nat_le (unsigned_abs z) (10 ^ 12))) amps.now }
    ensures bound { IfSome result (λ place. place < length amps.now) }
{
    amps.iter().position(|amps| !is_current(*amps))
}

/// At most 1 A in size.
fn is_current(amps: i64) -> bool
    ensures { result ≡ nat_le (unsigned_abs amps) (10 ^ 12) }
{
    amps.unsigned_abs() <= MOST_AMPS
}
