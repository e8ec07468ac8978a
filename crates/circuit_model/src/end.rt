//! The cell of the voltage between two ends.

ghost use Rattle.std.specs.Prelude.{◌≡◌, ◌≤◌, ◌^◌, length, unsigned_abs, All, IsTrue};
ghost use Rattle.semantics.specs.Grid.{cell, difference};
ghost use Rattle.circuit_model.specs.Ends.{cell_across, is_inside, volts_at};
ghost use Rattle.circuit_model.specs.Small.{IsSmall};

use crate::ends::End;
use device_tables::Grid;
use semantics::Fraction;

/// The voltage of ground.
const NO_VOLTS: Fraction = Fraction { num: 0, den: 1 };

/// The voltage of an end, where those of the nodes are these.
fn voltage(volts: &[Fraction], end: End) -> Fraction
    requires { IsTrue (is_inside (length volts.now) end) }
    ensures { result ≡ volts_at volts.now end }
{
    match end {
        None => NO_VOLTS,
        Some(node) => volts[node as usize],
    }
}

/// The numerator of the difference of two voltages, over the product of their denominators.
fn cross(a: &Fraction, b: &Fraction) -> i128
    requires a { IsSmall a.now }
    requires b { IsSmall b.now }
    ensures value { result ≡ (difference a.now b.now).num }
    ensures small { unsigned_abs result ≤ 10 ^ 38 }
{
    a.num * i128::from(b.den) - b.num * i128::from(a.den)
}

/// The cell of the difference of two voltages.
fn cell_between(grid: &Grid, a: &Fraction, b: &Fraction) -> u32
    requires a { IsSmall a.now }
    requires b { IsSmall b.now }
    ensures { result ≡ cell grid.now (difference a.now b.now) }
{
    let num = cross(a, b);
    let den = i128::from(a.den) * i128::from(b.den);
    grid.cell(num, den)
}

/// The cell of the voltage of one end less that of another, where those of the nodes are these.
pub(crate) fn cell_across(grid: &Grid, volts: &[Fraction], high: End, low: End) -> u32
    requires high { IsTrue (is_inside (length volts.now) high) }
    requires low { IsTrue (is_inside (length volts.now) low) }
    requires small { All IsSmall volts.now }
    ensures { result ≡ cell_across grid.now (volts_at volts.now) high low }
{
    cell_between(grid, &voltage(volts, high), &voltage(volts, low))
}
