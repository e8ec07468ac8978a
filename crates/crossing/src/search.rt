ghost use Rattle.std.specs.Prelude.{◌≡◌, ◌≤◌};
ghost use Rattle.node_ramps.specs.Lines.{InBounds};
ghost use Rattle.crossing.specs.Crossing.{cell_at, IsLeastCrossing};

use crate::gap::Gap;
use device_tables::Grid;
use semantics::Line;

/// The cell of `a` minus `b` at `now`. Both lines start at or before it, and are in bounds up to it.
pub fn cell_now(a: &Line, b: &Line, grid: &Grid, now: u64) -> u32
    requires a { InBounds a.now now }
    requires b { InBounds b.now now }
    ensures { result ≡ cell_at grid.now a.now b.now now }
{
    Gap::at(a, b, now).cell(grid)
}

/// The least tick after `now` and up to `end` at which the cell of `a` minus `b` is not the one at `now`, `None` exactly
/// where there is none. Both lines start at or before `now`. From its start to `end` each is in bounds: its denominator
/// is from 1 to 10^12, its numerator at both of these ticks at most 1.01 · 10^25 in size, and its rate at most 10^18.
///
/// It looks up one cell, and takes one division besides.
pub fn least_cross(a: &Line, b: &Line, grid: &Grid, now: u64, end: u64) -> Option<u64>
    requires a_started { a.now.start ≤ now }
    requires b_started { b.now.start ≤ now }
    requires order { now ≤ end }
    requires a_in_bounds { InBounds a.now end }
    requires b_in_bounds { InBounds b.now end }
    ensures { IsLeastCrossing grid.now a.now b.now now end result }
{
    let cell = cell_now(a, b, grid, now);
    next_cross(a, b, grid, cell, now, end)
}

/// What `least_cross` answers, where `cell` is the cell of `a` minus `b` at `now`. It takes one division.
pub fn next_cross(a: &Line, b: &Line, grid: &Grid, cell: u32, now: u64, end: u64) -> Option<u64>
    requires a_started { a.now.start ≤ now }
    requires b_started { b.now.start ≤ now }
    requires order { now ≤ end }
    requires a_in_bounds { InBounds a.now end }
    requires b_in_bounds { InBounds b.now end }
    requires cell { cell ≡ cell_at grid.now a.now b.now now }
    ensures { IsLeastCrossing grid.now a.now b.now now end result }
{
    let ticks = Gap::at(a, b, now).stay(grid, cell)?;
    if ticks < u128::from(end - now) {
        Some(now + ticks as u64 + 1)
    } else {
        None
    }
}
