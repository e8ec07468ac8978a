ghost use Rattle.std.specs.Prelude.{◌≡◌, ℕ, ◌+◌, ◌*◌, ◌^◌, ◌≤◌, pos, ◌+ℤ◌, ◌*ℤ◌, ◌≤ℤ◌, ◌<ℤ◌, unsigned_abs};
ghost use Rattle.semantics.specs.Grid.{difference};
ghost use Rattle.node_ramps.specs.Lines.{InBounds, voltage};
ghost use Rattle.crossing.specs.Gaps.{slope, after, IsSmall, IsSmallFraction, BeginsIn, IsRoom, IsStay};

use device_tables::Grid;
use semantics::{Fraction, Line};

/// The voltage between two lines from a tick on, which is a line too: after `k` ticks it is `(num + rate * k) / den`
/// microvolts.
#[derive(Drop)]
pub struct Gap {
    num: i128,
    rate: i128,
    den: i128,
}

impl Gap {
    /// That of `a` minus `b`, from `now` on.
    pub fn at(a: &Line, b: &Line, now: u64) -> Gap
        requires a { InBounds a.now now }
        requires b { InBounds b.now now }
        ensures small { IsSmall result }
        ensures line { (k : ℕ) → after result k ≡ difference (voltage a.now (now + k)) (voltage b.now (now + k)) }
    {
        Gap {
            num: minus(&voltage(a, now), &voltage(b, now)),
            rate: minus(&slope(a), &slope(b)),
            den: i128::from(a.den) * i128::from(b.den),
        }
    }

    /// The cell in which it begins.
    pub fn cell(&self, grid: &Grid) -> u32
        requires { IsSmall self.now }
        ensures { BeginsIn grid.now self.now result }
    {
        grid.cell(self.num, self.den)
    }

    /// For how many ticks it stays in the cell in which it begins, `None` where it never leaves it.
    pub fn stay(&self, grid: &Grid, cell: u32) -> Option<u128>
        requires { BeginsIn grid.now self.now cell }
        ensures { IsStay grid.now self.now cell result }
    {
        let room = self.room(grid, cell)?;
        Some(room / self.rate.unsigned_abs())
    }

    /// How far the numerator can go, the way that it goes, and stay in the cell; `None` where nothing ends the cell
    /// there, and where it does not go.
    fn room(&self, grid: &Grid, cell: u32) -> Option<u128>
        requires { BeginsIn grid.now self.now cell }
        ensures { IsRoom grid.now self.now cell result }
    {
        if self.rate > 0 {
            Some(self.under(grid.above(cell)?))
        } else if self.rate < 0 {
            Some(self.over(grid.below(cell)?))
        } else {
            None
        }
    }

    /// How far the numerator can rise and stay under that of a threshold.
    fn under(&self, threshold: i64) -> u128
        requires small { IsSmall self.now }
        requires threshold { unsigned_abs threshold ≤ 5 * 10 ^ 9 }
        requires under { self.now.num <ℤ (threshold *ℤ self.now.den) }
        ensures { (self.now.num +ℤ pos (result + 1)) ≡ threshold *ℤ self.now.den }
    {
        (self.numerator(threshold) - self.num) as u128 - 1
    }

    /// How far the numerator can fall and stay at or above that of a threshold.
    fn over(&self, threshold: i64) -> u128
        requires small { IsSmall self.now }
        requires threshold { unsigned_abs threshold ≤ 5 * 10 ^ 9 }
        requires over { (threshold *ℤ self.now.den) ≤ℤ self.now.num }
        ensures { self.now.num ≡ (threshold *ℤ self.now.den) +ℤ pos result }
    {
        (self.num - self.numerator(threshold)) as u128
    }

    /// The numerator of a threshold.
    fn numerator(&self, threshold: i64) -> i128
        requires small { IsSmall self.now }
        requires threshold { unsigned_abs threshold ≤ 5 * 10 ^ 9 }
        ensures value { result ≡ threshold *ℤ self.now.den }
        ensures size { unsigned_abs result ≤ 5 * 10 ^ 33 }
    {
        i128::from(threshold) * self.den
    }
}

/// A line's voltage at a tick.
fn voltage(line: &Line, tick: u64) -> Fraction
    requires { InBounds line.now tick }
    ensures { result ≡ voltage line.now tick }
{
    Fraction {
        num: line.num + line.rate * i128::from(tick - line.start),
        den: line.den,
    }
}

/// What a line's voltage gains from one tick to the next.
fn slope(line: &Line) -> Fraction
    ensures { result ≡ slope line.now }
{
    Fraction {
        num: line.rate,
        den: line.den,
    }
}

/// The numerator of `a` minus `b`.
fn minus(a: &Fraction, b: &Fraction) -> i128
    requires a { IsSmallFraction a.now }
    requires b { IsSmallFraction b.now }
    ensures { result ≡ (difference a.now b.now).num }
{
    a.num * i128::from(b.den) - b.num * i128::from(a.den)
}
