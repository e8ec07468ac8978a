ghost use Rattle.std.specs.Prelude.{◌≡◌, ◌<◌, ◌≤◌, ◌+◌, length, IfOk, OnOk};
ghost use Rattle.std.specs.Arc.{arc_value};
ghost use Rattle.record_waves.specs.RunRecord.{IsRunOf};
ghost use Rattle.window_run.specs.Circuit.{IsNumbered};
ghost use Rattle.scratch_run.specs.Starts.{HasFirst};
ghost use Rattle.scratch_run.specs.Waves.{wave_lines};

use crate::splices::splice_pieces;
use crate::starts::started;
use circuit_model::Circuit;
use histories::Histories;
use node_ramps::Steps;
use std::alloc::{AllocError, Global};
use std::sync::Arc;
use std::sync::ledger::Ledger;
use window_run::{Task, free_nodes, run_window};

/// The run of a whole circuit up to the stop of its deck: a record of each free node's voltage at each tick. It goes from
/// event to event, so ticks at which no device changes cost nothing. It counts at most as many ramps as the waves of the
/// free nodes have lines.
pub fn scratch<L: Ledger>(
    alloc: Global,
    shared: &Arc<Circuit>,
    steps: &mut Steps<L>,
) -> Result<Histories, AllocError>
    ensures run { IfOk result (λ past. IsRunOf (arc_value shared.now) past) }
    ensures steps { OnOk result (steps.new ≤ steps.old + wave_lines (arc_value shared.now)) }
{
    let circuit = &**shared;
    known(circuit);
    let past = started(alloc, circuit)?;
    if circuit.stop() == 0 {
        return Ok(past);
    }
    run_on(alloc, shared, past, steps)
}

/// The run from a record that has the first voltages, where the stop is after tick 0.
fn run_on<L: Ledger>(
    alloc: Global,
    shared: &Arc<Circuit>,
    past: Histories,
    steps: &mut Steps<L>,
) -> Result<Histories, AllocError>
    requires some { 0 < (arc_value shared.now).deck.stop }
    requires stop { past.stop ≡ (arc_value shared.now).deck.stop }
    requires first { HasFirst (arc_value shared.now) past (length (arc_value shared.now).names) }
    ensures run { IfOk result (λ past. IsRunOf (arc_value shared.now) past) }
    ensures steps { OnOk result (steps.new ≤ steps.old + wave_lines (arc_value shared.now)) }
{
    let circuit = &**shared;
    known(circuit);
    let stop = circuit.stop();
    let nodes = free_nodes(alloc, circuit)?;
    let own = Arc::try_clone(shared)?;
    let task = Task {
        circuit: own,
        past,
        nodes,
        from: 0,
        end: stop,
        budget: stop + 1,
    };
    let window = run_window(alloc, &task, steps)?;
    let Task { mut past, .. } = task;
    splice_pieces(window.into_pieces(), &mut past)?;
    Ok(past)
}

/// What a circuit holds of its deck and its numbers.
fn known(circuit: &Circuit)
    ensures { IsNumbered circuit.now }
{
    circuit.stop();
    circuit.node_count();
}
