ghost use Rattle.std.specs.Prelude.{ℕ, ◌^◌, ◌≤◌};
ghost use Rattle.node_ramps.specs.Lines.{InBounds};

use crate::{least_cross, next_cross};
use device_tables::Grid;
use semantics::Line;
use std::test::Fail;

#[test]
fn to_the_next_cell(rt: HostRuntime) {
    let grid = Grid::uniform(100_000, 4096);
    let a = Line {
        start: 0,
        num: 1_000_000,
        rate: 0,
        den: 1,
    };
    let b = Line {
        start: 0,
        num: 0,
        rate: 1_000_000_000,
        den: 1_000_000,
    };
    assert_eq!(rt; least_cross(&a, &b, &grid, 0, 1000), Some(51));
    assert_eq!(rt; least_cross(&a, &b, &grid, 0, 50), None);
}

// The thresholds are -1 and 1: at tick 2 the difference is 0 microvolts, in the middle cell, and at tick 3 it is 1.
#[test]
#[tactic(auto, unfolding(semantics::specs::Grid::cell, semantics::specs::Grid::uniform))]
fn from_a_known_cell(rt: HostRuntime) {
    let grid = Grid::uniform(2, 1);
    let a = Line {
        start: 1,
        num: -2,
        rate: 2,
        den: 2,
    };
    let b = Line {
        start: 0,
        num: 0,
        rate: 0,
        den: 1,
    };
    assert_eq!(rt; next_cross(&a, &b, &grid, 1, 2, 100), Some(3));
}

// A line from tick 0 on: its numerator, its gain a tick and its denominator, which is at least 1.
type Row = (i32, i32, u16);

fn line(row: Row) -> Line
    ensures { (tick : ℕ) → tick ≤ 2 ^ 32 → InBounds result tick }
{
    let (num, rate, den) = row;
    Line {
        start: 0,
        num: i128::from(num),
        rate: i128::from(rate),
        den: u64::from(den.max(1)),
    }
}

// The cell of `a` minus `b` at a tick: each threshold is compared.
fn cell_at(thresholds: &[i64], a: &Line, b: &Line, tick: u64) -> usize {
    let ticks = i128::from(tick);
    let a_num = a.rate.wrapping_mul(ticks).wrapping_add(a.num);
    let b_num = b.rate.wrapping_mul(ticks).wrapping_add(b.num);
    let (a_den, b_den) = (i128::from(a.den), i128::from(b.den));
    let num = a_num
        .wrapping_mul(b_den)
        .wrapping_sub(b_num.wrapping_mul(a_den));
    let den = a_den.wrapping_mul(b_den);
    thresholds
        .iter()
        .filter(|threshold| i128::from(**threshold).wrapping_mul(den) <= num)
        .count()
}

// The next crossing, found by looking at each tick.
fn stepped(thresholds: &[i64], a: &Line, b: &Line, now: u64, end: u64) -> Option<u64> {
    for tick in now..end {
        if cell_at(thresholds, a, b, tick + 1) != cell_at(thresholds, a, b, now) {
            return Some(tick + 1);
        }
    }
    None
}

// Whether the search of a grid with these thresholds answers as the steps do.
fn agrees(grid: &Grid, thresholds: &[i64], a: Row, b: Row, now: u16, ticks: u16) -> bool {
    let (a, b) = (line(a), line(b));
    let now = u64::from(now);
    let end = now + u64::from(ticks);
    least_cross(&a, &b, grid, now, end) == stepped(thresholds, &a, &b, now, end)
}

#[test]
fn four_thresholds(rt: HostRuntime) {
    let grid = Grid::uniform(100, 2);
    let level = (0, 0, 1);
    for (what, a, b, now, ticks) in [
        ("rises", (0, 3, 1), level, 0, 100),
        ("rises to a threshold", (0, 5, 1), level, 0, 100),
        ("rises from a threshold", (50, 1, 1), level, 0, 200),
        ("rises over several", (-140, 1000, 1), level, 0, 100),
        ("falls", (0, -3, 1), level, 0, 100),
        ("falls to a threshold", (0, -5, 1), level, 0, 100),
        ("falls from a threshold", (50, -1, 1), level, 0, 100),
        ("falls by the second", level, (0, 3, 1), 0, 100),
        ("is level", (60, 0, 1), level, 0, 100),
        ("is level by both", (0, 1, 2), (10, 2, 4), 0, 1000),
        ("goes by both", (1, 2, 3), (5, -7, 11), 30, 500),
        ("falls in the first cell", (-200, -3, 1), level, 0, 100),
        ("rises in the first cell", (-200, 3, 1), level, 0, 100),
        ("rises in the last cell", (150, 3, 1), level, 0, 100),
        ("falls in the last cell", (200, -3, 1), level, 0, 100),
        ("began long ago", (0, 3, 1), level, 40, 100),
        ("crosses at the end", (0, 3, 1), level, 0, 17),
        ("crosses after the end", (0, 3, 1), level, 0, 16),
        ("has no tick left", (49, 3, 1), level, 7, 0),
    ] {
        assert!(rt;
            agrees(&grid, &[-150, -50, 50, 150], a, b, now, ticks),
            "{what}"
        );
    }
}

#[test]
fn one_threshold(rt: HostRuntime) -> Result<(), Fail> {
    let grid = Grid::of_list([7].to_vec(rt.alloc())?)?;
    for (what, a, now) in [
        ("rises to it", (0, 1, 1), 0),
        ("rises to it by halves", (9, 1, 2), 2),
        ("rises over it", (0, 2, 1), 0),
        ("rises from it", (7, 1, 1), 0),
        ("falls from it", (7, -1, 1), 0),
        ("falls to it", (9, -1, 1), 0),
        ("falls under it", (6, -1, 1), 0),
    ] {
        assert!(rt; agrees(&grid, &[7], a, (0, 0, 1), now, 100), "{what}");
    }
    Ok(())
}

#[test]
fn no_threshold(rt: HostRuntime) -> Result<(), Fail> {
    let grid = Grid::of_list([].to_vec(rt.alloc())?)?;
    assert!(rt; agrees(&grid, &[], (0, 9, 1), (0, -9, 1), 0, 100));
    assert!(rt; agrees(&grid, &[], (0, -9, 1), (0, 9, 1), 0, 100));
    Ok(())
}
