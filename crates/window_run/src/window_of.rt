ghost use Rattle.std.specs.Prelude.{◌≡◌, ◌↔◌, ◌<◌, ◌≤◌, ◌+◌, map, IfOk};
ghost use Rattle.circuit_model.specs.Records.{IsRecordOf};
ghost use Rattle.histories.specs.Record.{keeps};
ghost use Rattle.window_run.specs.Circuit.{net_of};
ghost use Rattle.window_run.specs.Events.{HasEvents};
ghost use Rattle.window_run.specs.Found.{Found};
ghost use Rattle.window_run.specs.Net.{HasEventTicks};
ghost use Rattle.window_run.specs.Pieces.{line_count, pairs};
ghost use Rattle.window_run.specs.Task.{after, circuit_of, deck_of};
ghost use Rattle.window_run.specs.Task.{AreFreeNodes, EachTurns, HasPieces, IsMended, IsNoWorse};
ghost use Rattle.window_run.specs.Window.{ramp_count};

use crate::courses::{Courses, run_lines};
use crate::hand_out::hand_out;
use crate::intake::first_lines;
use crate::stop::Stop;
use crate::task::Task;
use crate::window::Window;
use crate::wiring::known;
use node_ramps::Steps;
use std::alloc::{AllocError, Global};
use std::sync::ledger::Ledger;

/// Runs the nodes of a task from its first tick to its end, or to the first event tick past its budget, the first tick
/// among the event ticks. An event tick is one at which a device comes into other cells or a source turns, so quiet ticks
/// cost nothing.
///
/// The nodes are all free nodes of the circuit. The window has a piece of each, in their order. With the pieces in it the
/// record has no fault of them from the first tick to below the last one.
pub fn run_window<L: Ledger>(
    alloc: Global,
    task: &Task,
    steps: &mut Steps<L>,
) -> Result<Window, AllocError>
    requires order { (task.now.from < task.now.end) × (task.now.end ≤ (deck_of task.now).stop) }
    requires budget { 1 ≤ task.now.budget }
    requires record { IsRecordOf (circuit_of task.now) task.now.past.stop (keeps task.now.past) }
    requires nodes { AreFreeNodes task.now }
    ensures mended { IfOk result (IsMended task.now) }
    ensures no_worse { IfOk result (IsNoWorse task.now) }
    ensures from { IfOk result (λ w. w.from ≡ task.now.from) }
    ensures until { IfOk result (λ w. (w.from < w.until) × (w.until ≤ task.now.end)) }
    ensures end { IfOk result (λ w. (w.stop ≡ Stop.End) ↔ (w.until ≡ task.now.end)) }
    // It stops before the end only where so many event ticks were taken.
    ensures budget { IfOk result (λ w. w.stop ≡ Stop.Budget
        → HasEvents (deck_of task.now) (after task.now w)
        task.now.from task.now.budget w.until) }
    ensures pieces { IfOk result (HasPieces task.now) }
    ensures turns { IfOk result (EachTurns task.now) }
    // As many ramps were counted as the pieces have.
    ensures steps { IfOk result (λ w. steps.new ≡ steps.old + ramp_count w.pieces) }
{
    let courses = courses_of(alloc, task, steps)?;
    let until = courses.until;
    let pieces = hand_out(alloc, &task.nodes, courses.ramps, task.from, until)?;
    Ok(Window {
        from: task.from,
        until,
        stop: stop_at(until, task.end),
        pieces,
    })
}

/// The run of a task by numbers.
fn courses_of<L: Ledger>(
    alloc: Global,
    task: &Task,
    steps: &mut Steps<L>,
) -> Result<Courses, AllocError>
    requires order { (task.now.from < task.now.end) × (task.now.end ≤ (deck_of task.now).stop) }
    requires budget { 1 ≤ task.now.budget }
    requires record { IsRecordOf (circuit_of task.now) task.now.past.stop (keeps task.now.past) }
    requires nodes { AreFreeNodes task.now }
    ensures found { IfOk result (λ w. Found task.now w.until (map (λ v. v.items) w.ramps.items)) }
    ensures by_end { IfOk result (λ w. w.until ≤ task.now.end) }
    ensures budget { IfOk result (λ w. w.until < task.now.end
        → HasEventTicks (net_of (circuit_of task.now)) (pairs (map (λ v. v.items) w.ramps.items))
        task.now.from task.now.budget w.until) }
    ensures steps { IfOk result (λ w.
        steps.new ≡ steps.old + line_count (map (λ v. v.items) w.ramps.items)) }
{
    let circuit = &*task.circuit;
    known(circuit);
    let lines = first_lines(alloc, circuit, &task.past, task.from)?;
    let courses = run_lines(
        alloc,
        circuit,
        lines,
        steps,
        task.from,
        task.end,
        task.budget,
    )?;
    Ok(courses)
}

/// Why a window that ended at this tick went no further.
fn stop_at(until: u64, end: u64) -> Stop
    ensures { (result ≡ Stop.End) ↔ (until ≡ end) }
{
    if until == end {
        Stop::End
    } else {
        Stop::Budget
    }
}
