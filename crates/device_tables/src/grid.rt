ghost use Rattle.std.specs.Prelude.{◌≡◌, pos, ◌≤◌, ◌<◌, ◌+◌, ◌*◌, ◌/◌, ◌^◌, ◌+ℤ◌, ◌≤ℤ◌, ◌↔◌, unsigned_abs, length, IsTrue, IfSome, IfOk, IsOk};
ghost use Rattle.std.specs.Int.{int_div_euclid};
ghost use Rattle.std.specs.List.{slice_get};
ghost use Rattle.std.specs.Result.{result_err};
ghost use Rattle.semantics.specs.Grid.{cell, threshold, uniform};
ghost use Rattle.semantics.specs.Valid.{some_grain, is_grid, rising};
ghost use Rattle.device_tables.specs.Ends.{threshold_below, threshold_above};
ghost use Rattle.device_tables.specs.Refusal.{grid_refusal};

use crate::floor::floor;
use crate::refusal::{TableRefusal, grid_refusal};
use std::marker::Model;

/// What a grid keeps of its thresholds.
#[derive(Debug, Drop)]
enum Thresholds {
    /// Those halfway between neighbouring multiples of the grain: two numbers stand for all of them.
    Uniform { grain: u32, half: u32 },
    Listed(Vec<i64>),
}

/// A rising list of thresholds in µV. Between two neighbours a device's current does not change.
#[derive(Debug, Drop)]
pub struct Grid {
    thresholds: Thresholds,
}

impl Model for Grid {
    ghost use Rattle.std.specs.Prelude.{List, ℤ, IsTrue};

    ghost Value = { List ℤ };

    ghost use Rattle.device_tables.specs.Kept.{thresholds_of, is_kept};

    ghost view = { λ g. thresholds_of g.thresholds };

    ghost invariant = { λ g. IsTrue (is_kept g.thresholds) };
}

impl Grid {
    /// The grid with the threshold `(2k - 1) · grain / 2` for each k from `1 - half` to `half`, so that each multiple of
    /// the grain lies in the middle of a cell. `grain` is even and from 2 to 10^6 µV, `half` from 1 to 4,096.
    pub fn uniform(grain: u32, half: u32) -> Grid
        requires grain { IsTrue (some_grain grain) }
        requires positive { 1 ≤ half }
        requires half { half ≤ 4096 }
        ensures { result ≡ uniform grain half }
    {
        Grid {
            thresholds: Thresholds::Uniform { grain, half },
        }
    }

    /// The grid with these thresholds in µV. A place counts from 0.
    ///
    /// # Errors
    ///
    /// `TooManyThresholds` with their count where there are more than 256, otherwise `ThresholdTooLarge` with the place
    /// of the first that is over 1,000 V in size, otherwise `NotRising` with the place of the first that is not above
    /// the one before it.
    pub fn of_list(thresholds: Vec<i64>) -> Result<Grid, TableRefusal>
        requires { length thresholds.items < 2 ^ 32 }
        ensures grid { IfOk result (λ g. g ≡ thresholds.items) }
        ensures cause { result_err result ≡ grid_refusal thresholds.items }
        ensures valid { IsOk result ↔ IsTrue (is_grid thresholds.items) }
    {
        match grid_refusal(&thresholds) {
            Some(refusal) => Err(refusal),
            None => Ok(Grid {
                thresholds: Thresholds::Listed(thresholds),
            }),
        }
    }

    /// The cell of the voltage `num / den` µV: how many thresholds are at most it. `den` is from 1 to 10^24, and `num`
    /// at most 10^38 in size. It takes one division, and on a list a binary search besides.
    pub fn cell(&self, num: i128, den: i128) -> u32
        requires positive { pos 1 ≤ℤ den }
        requires den { den ≤ℤ pos (10 ^ 24) }
        requires num { unsigned_abs num ≤ 10 ^ 38 }
        ensures { result ≡ cell self.now (record { num = num; den = unsigned_abs den }) }
    {
        match &self.thresholds {
            Thresholds::Uniform { grain, half } => uniform_cell(*grain, *half, num, den),
            Thresholds::Listed(thresholds) => listed_cell(thresholds, num, den),
        }
    }

    /// The threshold in µV at the lower end of a cell, `None` for the first cell.
    pub fn below(&self, cell: u32) -> Option<i64>
        requires { cell ≤ length self.now }
        ensures end { result ≡ threshold_below self.now cell }
        ensures rising { IfSome result (λ _. IsTrue (rising self.now)) }
        ensures size { IfSome result (λ θ. unsigned_abs θ ≤ 5 * 10 ^ 9) }
    {
        if cell == 0 {
            return None;
        }
        Some(self.threshold(cell - 1))
    }

    /// The threshold in µV at the upper end of a cell, `None` for the last cell.
    pub fn above(&self, cell: u32) -> Option<i64>
        requires { cell ≤ length self.now }
        ensures end { result ≡ threshold_above self.now cell }
        ensures rising { IfSome result (λ _. IsTrue (rising self.now)) }
        ensures size { IfSome result (λ θ. unsigned_abs θ ≤ 5 * 10 ^ 9) }
    {
        if cell == self.len() {
            return None;
        }
        Some(self.threshold(cell))
    }

    /// How many thresholds there are.
    #[tactic(auto, using(crate::proofs::Laws::uniform_length))]
    pub(crate) fn len(&self) -> u32
        ensures count { result ≡ length self.now }
        ensures rising { IsTrue (rising self.now) }
    {
        match &self.thresholds {
            Thresholds::Uniform { half, .. } => 2 * half,
            Thresholds::Listed(thresholds) => thresholds.len() as u32,
        }
    }

    /// The threshold at a place.
    #[tactic(auto, using(crate::proofs::Laws::uniform_length, crate::proofs::Laws::uniform_at))]
    fn threshold(&self, place: u32) -> i64
        requires { place < length self.now }
        ensures value { slice_get self.now place ≡ Some result }
        ensures rising { IsTrue (rising self.now) }
        ensures size { unsigned_abs result ≤ 5 * 10 ^ 9 }
    {
        match &self.thresholds {
            Thresholds::Uniform { grain, half } => uniform_threshold(*grain, *half, place),
            Thresholds::Listed(thresholds) => thresholds[place as usize],
        }
    }
}

/// The threshold at a place of a uniform grid.
fn uniform_threshold(grain: u32, half: u32, place: u32) -> i64
    requires grain { IsTrue (some_grain grain) }
    requires half { half ≤ 4096 }
    requires place { place < 2 * half }
    ensures { result ≡ threshold grain half place }
{
    (i64::from(2 * place + 1) - i64::from(2 * half)) * i64::from(grain / 2)
}

/// The cell of `num / den` in a uniform grid: half lies at the voltage 0.
fn uniform_cell(grain: u32, half: u32, num: i128, den: i128) -> u32
    requires grain { IsTrue (some_grain grain) }
    requires half { half ≤ 4096 }
    requires positive { pos 1 ≤ℤ den }
    requires den { den ≤ℤ pos (10 ^ 24) }
    requires num { unsigned_abs num ≤ 10 ^ 38 }
    ensures { result ≡ cell (uniform grain half) (record { num = num; den = unsigned_abs den }) }
{
    let grains = rounded(grain, num, den) + i128::from(half);
    grains.clamp(0, i128::from(2 * half)) as u32
}

/// The voltage `num / den` in grains, rounded to the nearest whole number.
fn rounded(grain: u32, num: i128, den: i128) -> i128
    requires grain { IsTrue (some_grain grain) }
    requires positive { pos 1 ≤ℤ den }
    requires den { den ≤ℤ pos (10 ^ 24) }
    requires num { unsigned_abs num ≤ 10 ^ 38 }
    ensures value { let m = grain / 2 * unsigned_abs den in result ≡ int_div_euclid (num +ℤ pos m) (pos (2 * m)) }
    ensures size { unsigned_abs result ≤ 10 ^ 38 + 10 ^ 30 }
{
    floor(num + i128::from(grain / 2) * den, i128::from(grain) * den)
}

/// The cell of `num / den` among listed thresholds.
fn listed_cell(thresholds: &[i64], num: i128, den: i128) -> u32
    requires grid { IsTrue (is_grid thresholds.now) }
    requires positive { pos 1 ≤ℤ den }
    ensures { result ≡ cell thresholds.now (record { num = num; den = unsigned_abs den }) }
{
    let whole = floor(num, den);
    thresholds.partition_point(|threshold| i128::from(*threshold) <= whole) as u32
}
