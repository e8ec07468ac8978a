ghost use Rattle.std.specs.Prelude.{◌≤◌};
ghost use Rattle.crossing.specs.Crossing.{cell_at};
ghost use Rattle.fault_sweep.specs.Stretches.{IsRunning, IsStay};

use crate::course::Course;
use crossing::{cell_now, next_cross};
use device_tables::Grid;

/// The cell of a voltage from a tick on, and the tick before which it stays in that cell.
#[derive(Clone, Copy)]
pub(crate) struct Stay {
    pub(crate) cell: u32,
    pub(crate) until: u64,
}

impl Stay {
    /// That of the one course less the other, from this tick on.
    pub(crate) fn between(high: &Course, low: &Course, grid: &Grid, now: u64) -> Stay
        requires high { IsRunning now high.now }
        requires low { IsRunning now low.now }
        ensures stay { IsStay (cell_at grid.now high.now.line low.now.line) now result }
        ensures by_high { result.until ≤ high.now.until }
        ensures by_low { result.until ≤ low.now.until }
    {
        let until = high.until.min(low.until);
        let cell = cell_now(&high.line, &low.line, grid, now);
        let cross = next_cross(&high.line, &low.line, grid, cell, now, until - 1);
        Stay {
            cell,
            until: cross.unwrap_or(until),
        }
    }
}
