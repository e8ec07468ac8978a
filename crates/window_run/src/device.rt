//! What a device does between the lines of its ends.

ghost use Rattle.std.specs.Prelude.{◌≡◌, ◌⊎◌, ◌<◌, ◌≤◌, ℕ, [], length, option_map, unwrap_or};
ghost use Rattle.node_ramps.specs.Lines.{InBounds};
ghost use Rattle.crossing.specs.Crossing.{cell_at, IsLeastCrossing};
ghost use Rattle.window_run.specs.Net.{IsNet};
ghost use Rattle.window_run.specs.Stage.{cell_of, line_at, AreLines, Before, IsWithin, KnowsDue};
ghost use Rattle.window_run.specs.Circuit.{net_of};

use crate::wiring::{drain_grid, ends, gate_grid};
use circuit_model::Circuit;
use crossing::{cell_now, next_cross};
use device_tables::Grid;
use semantics::Line;

/// The line of ground.
const GROUND: Line = Line {
    start: 0,
    num: 0,
    rate: 0,
    den: 1,
};

/// The line of an end.
fn line_at(lines: &[Line], end: Option<u32>, now: u64, last: u64) -> Line
    requires within { IsWithin (length lines.now) end }
    requires lines { AreLines lines.now now last }
    ensures value { result ≡ line_at lines.now end }
    ensures started { result.start ≤ now }
    ensures bounds { InBounds result last }
    ensures bounds_now { InBounds result now }
{
    match end {
        Some(node) => lines[node as usize],
        None => GROUND,
    }
}

/// The cell of `a` minus `b` in a grid, or in none.
#[tactic(auto, unfolding(semantics::specs::Grid::cell))]
fn cell_in(grid: Option<&Grid>, a: &Line, b: &Line, now: u64) -> u32
    requires a { InBounds a.now now }
    requires b { InBounds b.now now }
    ensures { result ≡ cell_at (unwrap_or (option_map (λ g. g.now) grid.entry) []) a.now b.now now }
{
    match grid {
        Some(grid) => cell_now(a, b, grid, now),
        None => 0,
    }
}

/// The next tick at which `a` minus `b` comes into another cell of a grid than this one, where it is now.
fn cross_in(grid: Option<&Grid>, a: &Line, b: &Line, cell: u32, now: u64, end: u64) -> Option<u64>
    requires a_started { a.now.start ≤ now }
    requires b_started { b.now.start ≤ now }
    requires order { now ≤ end }
    requires a_in_bounds { InBounds a.now end }
    requires b_in_bounds { InBounds b.now end }
    requires cell { cell ≡ cell_at (unwrap_or (option_map (λ g. g.now) grid) []) a.now b.now now }
    ensures { IsLeastCrossing (unwrap_or (option_map (λ g. g.now) grid.entry) []) a.now b.now now end result }
{
    match grid {
        Some(grid) => next_cross(a, b, grid, cell, now, end),
        None => None,
    }
}

/// The cells of a device at a tick.
pub(crate) fn cells_now(
    circuit: &Circuit,
    device: u32,
    lines: &[Line],
    now: u64,
    end: u64,
) -> (u32, u32)
    requires net { IsNet (net_of circuit.now) }
    requires device { device < (net_of circuit.now).devices }
    requires count { length lines.now ≡ (net_of circuit.now).nodes }
    requires lines { AreLines lines.now now end }
    ensures cells { result ≡ cell_of (net_of circuit.now) lines.now now device }
    ensures gate { result.0 ≤ length ((net_of circuit.now).gate_grid device) }
    ensures drain { result.1 ≤ length ((net_of circuit.now).drain_grid device) }
{
    let leads = ends(circuit, device);
    let first = line_at(lines, leads.first, now, end);
    let second = line_at(lines, leads.second, now, end);
    let gate = line_at(lines, leads.gate, now, end);
    let gate_cell = cell_in(gate_grid(circuit, device), &gate, &second, now);
    let drain_cell = cell_now(&first, &second, drain_grid(circuit, device), now);
    (gate_cell, drain_cell)
}

/// The next tick up to the end at which a device comes into other cells, where it is in these now.
pub(crate) fn next_due(
    circuit: &Circuit,
    device: u32,
    lines: &[Line],
    cells: (u32, u32),
    now: u64,
    end: u64,
) -> Option<u64>
    requires net { IsNet (net_of circuit.now) }
    requires device { device < (net_of circuit.now).devices }
    requires count { length lines.now ≡ (net_of circuit.now).nodes }
    requires lines { AreLines lines.now now end }
    requires cells { cells ≡ cell_of (net_of circuit.now) lines.now now device }
    ensures knows { KnowsDue (net_of circuit.now) device lines.now now end cells result }
    ensures later { Before now result }
{
    let leads = ends(circuit, device);
    let first = line_at(lines, leads.first, now, end);
    let second = line_at(lines, leads.second, now, end);
    let gate = line_at(lines, leads.gate, now, end);
    let gate_due = cross_in(
        gate_grid(circuit, device),
        &gate,
        &second,
        cells.0,
        now,
        end,
    );
    let drain = drain_grid(circuit, device);
    let drain_due = next_cross(&first, &second, drain, cells.1, now, end);
    earlier(gate_due, drain_due)
}

/// The lesser of two ticks, where there are any.
pub(crate) fn earlier(a: Option<u64>, b: Option<u64>) -> Option<u64>
    ensures before_both { (s : ℕ) → Before s result → Before s a × Before s b }
    ensures one_of { (result ≡ a) ⊎ (result ≡ b) }
{
    match (a, b) {
        (Some(a), Some(b)) => Some(a.min(b)),
        (Some(a), None) => Some(a),
        (None, b) => b,
    }
}
