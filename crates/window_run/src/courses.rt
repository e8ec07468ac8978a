ghost use Rattle.std.specs.Prelude.{◌≡◌, ◌≤◌, ◌<◌, ◌+◌, ℕ, true, length, map, IfOk, OnOk};
ghost use Rattle.node_ramps.specs.Lines.{voltage};
ghost use Rattle.window_run.specs.Circuit.{net_of};
ghost use Rattle.window_run.specs.Net.{HasEventTicks, IsRun};
ghost use Rattle.histories.specs.Track.{line_of};
ghost use Rattle.window_run.specs.Pieces.{AreTurning, OnlyFree, line_count, pairs};
ghost use Rattle.window_run.specs.Stage.{AreBounded, AreLines, AreSlow, BeginAt};

use crate::open::open_stage;
use crate::wiring::known;
use circuit_model::Circuit;
use node_ramps::{Ramp, Steps};
use semantics::Line;
use std::alloc::{AllocError, Global};
use std::sync::ledger::Ledger;

/// The run of a circuit from one tick to another, by numbers.
#[derive(Drop)]
pub(crate) struct Courses {
    /// Where it ended.
    pub(crate) until: u64,
    /// The ramps of each free node, by its number; other numbers have none.
    pub(crate) ramps: Vec<Vec<Ramp>>,
}

/// Runs a circuit from a tick to the end, or to the first event tick past so many, the beginning among them. The lines
/// tell the voltage that each free node has at the beginning: they begin there, without a slope.
pub(crate) fn run_lines<L: Ledger>(
    alloc: Global,
    circuit: &Circuit,
    lines: Vec<Line>,
    steps: &mut Steps<L>,
    from: u64,
    end: u64,
    budget: u64,
) -> Result<Courses, AllocError>
    requires order { (from < end) × (end ≤ (net_of circuit.now).stop) }
    requires budget { 1 ≤ budget }
    requires count { length lines.items ≡ (net_of circuit.now).nodes }
    requires lines { AreLines lines.items from end }
    requires nums { AreBounded (net_of circuit.now) lines.items from }
    requires slow { AreSlow (net_of circuit.now) lines.items }
    requires begin { BeginAt (net_of circuit.now) lines.items from }
    // From there on each free node is charged at each tick with what flows in at the voltages of the tick.
    ensures run { IfOk result (λ w. IsRun (net_of circuit.now) (pairs (map (λ v. v.items) w.ramps.items)) from w.until) }
    ensures first { IfOk result (λ w. (i : ℕ) → i < (net_of circuit.now).nodes → (net_of circuit.now).free i ≡ true
        → pairs (map (λ v. v.items) w.ramps.items) i from ≡ voltage (line_of lines.items i) from) }
    ensures count { IfOk result (λ w. length w.ramps.items ≡ (net_of circuit.now).nodes) }
    // Its ramps turn, and the last of them begins before the end.
    ensures turning { IfOk result (λ w. AreTurning (net_of circuit.now) from w.until
        (map (λ v. v.items) w.ramps.items)) }
    ensures only { IfOk result (λ w.
        OnlyFree (net_of circuit.now) (map (λ v. v.items) w.ramps.items)) }
    ensures until { IfOk result (λ w. (from < w.until) × (w.until ≤ end)) }
    // It stops before the end only where so many event ticks were taken.
    ensures budget { IfOk result (λ w. w.until < end
        → HasEventTicks (net_of circuit.now) (pairs (map (λ v. v.items) w.ramps.items)) from budget w.until) }
    // As many ramps were counted as it has.
    ensures steps { IfOk result (λ w. steps.new ≡ steps.old + line_count (map (λ v. v.items) w.ramps.items)) }
{
    known(circuit);
    let mut ramps = Vec::new(alloc);
    let mut stage = open_stage(alloc, circuit, lines, &mut ramps, steps, from, end)?;
    let until = stage.run(circuit, &mut ramps, steps, from, end, budget)?;
    Ok(Courses { until, ramps })
}
