//! The beginning of a window.

ghost use Rattle.std.specs.Prelude.{◌≡◌, ◌≤◌, ◌<◌, ◌+◌, ℕ, [], pos, true, length, map, slice_index_or, All, Contains, IfOk, OnOk};
ghost use Rattle.node_ramps.specs.Lines.{voltage};
ghost use Rattle.window_run.specs.Circuit.{net_of};
ghost use Rattle.window_run.specs.Net.{IsNet};
ghost use Rattle.histories.specs.Track.{line_of};
ghost use Rattle.window_run.specs.Pieces.{line_count, OnlyFree, PiecesGo, SetsOut};
ghost use Rattle.window_run.specs.Stage.{AreBounded, AreLines, AreSlow, BeginAt, IsSteady, LinesBut, RatesAreSlow, SameDriven, SameVolts};

use crate::bend::bend;
use crate::flow::first_cells;
use crate::look::look;
use crate::stage::Stage;
use crate::wiring::{device_count, is_driven, is_free, node_count};
use circuit_model::Circuit;
use event_order::Queue;
use node_ramps::{Ramp, Steps};
use semantics::Line;
use std::alloc::{AllocError, Global};
use std::sync::ledger::Ledger;

/// All driven nodes.
fn driven_nodes(alloc: Global, circuit: &Circuit) -> Result<Vec<u32>, AllocError>
    ensures driven { IfOk result (λ nodes. All (λ i. (i < (net_of circuit.now).nodes) × ((net_of circuit.now).driven i ≡ true)) nodes.items) }
    ensures all { IfOk result (λ nodes. (i : ℕ) → i < (net_of circuit.now).nodes → (net_of circuit.now).driven i ≡ true → Contains nodes.items i) }
{
    let mut nodes = Vec::new(alloc);
    for node in 0..node_count(circuit) {
        if is_driven(circuit, node) {
            nodes.push(node)?;
        }
    }
    Ok(nodes)
}

/// All devices.
fn all_devices(alloc: Global, circuit: &Circuit) -> Result<Vec<u32>, AllocError>
    ensures inside { IfOk result (λ devices. All (λ k. k < (net_of circuit.now).devices) devices.items) }
    ensures all { IfOk result (λ devices. (k : ℕ) → k < (net_of circuit.now).devices → Contains devices.items k) }
{
    let mut devices = Vec::new(alloc);
    for device in 0..device_count(circuit) {
        devices.push(device)?;
    }
    Ok(devices)
}

/// The piece of a node, and its line: the first ramp of a free node has this rate, and another node has no piece.
fn first_piece<L: Ledger>(
    alloc: Global,
    free: bool,
    line: &Line,
    rate: i128,
    steps: &mut Steps<L>,
) -> Result<(Line, Vec<Ramp>), AllocError>
    ensures { IfOk result (λ r. SetsOut free rate line.now r.0 r.1.items steps.old steps.new) }
{
    let mut piece = Vec::new(alloc);
    if !free {
        return Ok((*line, piece));
    }
    piece.reserve(1)?;
    let ramp = Ramp::first(Line { rate, ..*line }, steps);
    piece.push_reserved(ramp);
    Ok((ramp.line(), piece))
}

/// Lets each free node set out at its rate.
fn set_out<L: Ledger>(
    alloc: Global,
    circuit: &Circuit,
    rates: &[i128],
    lines: &mut [Line],
    pieces: &mut Vec<Vec<Ramp>>,
    steps: &mut Steps<L>,
    from: u64,
    end: u64,
) -> Result<(), AllocError>
    requires net { IsNet (net_of circuit.now) }
    requires count_lines { length lines.old ≡ (net_of circuit.now).nodes }
    requires count_rates { length rates.now ≡ (net_of circuit.now).nodes }
    requires no_pieces { pieces.old.items ≡ [] }
    requires lines { AreLines lines.old from end }
    requires end { end ≤ (net_of circuit.now).stop }
    requires rates { RatesAreSlow (net_of circuit.now) rates.now }
    requires nums { AreBounded (net_of circuit.now) lines.old from }
    requires slow { AreSlow (net_of circuit.now) lines.old }
    requires begin { BeginAt (net_of circuit.now) lines.old from }
    ensures lines { OnOk result (AreLines lines.new from end) }
    ensures slow { OnOk result (AreSlow (net_of circuit.now) lines.new) }
    ensures nums { OnOk result (AreBounded (net_of circuit.now) lines.new from) }
    ensures goes { OnOk result (LinesBut [] (net_of circuit.now) lines.new rates.now) }
    ensures volts { OnOk result (SameVolts lines.old lines.new from) }
    ensures driven { OnOk result (SameDriven (net_of circuit.now) lines.old lines.new) }
    ensures count_pieces { OnOk result (length pieces.new.items ≡ (net_of circuit.now).nodes) }
    ensures pieces { OnOk result (PiecesGo (net_of circuit.now) from (map (λ v. v.items) pieces.new.items) lines.new) }
    ensures only { OnOk result
        (OnlyFree (net_of circuit.now) (map (λ v. v.items) pieces.new.items)) }
    ensures steps { OnOk result (steps.new ≡ steps.old + line_count (map (λ v. v.items) pieces.new.items)) }
{
    for node in 0..node_count(circuit) {
        let i = node as usize;
        let (line, piece) = first_piece(alloc, is_free(circuit, node), &lines[i], rates[i], steps)?;
        lines[i] = line;
        pieces.push(piece)?;
    }
    Ok(())
}

/// The stage at a tick, where the free nodes have these lines without a slope.
pub(crate) fn open_stage<L: Ledger>(
    alloc: Global,
    circuit: &Circuit,
    mut lines: Vec<Line>,
    pieces: &mut Vec<Vec<Ramp>>,
    steps: &mut Steps<L>,
    from: u64,
    end: u64,
) -> Result<Stage, AllocError>
    requires net { IsNet (net_of circuit.now) }
    requires count_lines { length lines.items ≡ (net_of circuit.now).nodes }
    requires no_pieces { pieces.old.items ≡ [] }
    requires lines { AreLines lines.items from end }
    requires end { end ≤ (net_of circuit.now).stop }
    requires nums { AreBounded (net_of circuit.now) lines.items from }
    requires slow { AreSlow (net_of circuit.now) lines.items }
    requires begin { BeginAt (net_of circuit.now) lines.items from }
    ensures steady { IfOk result (λ stage. IsSteady (net_of circuit.now) stage from end) }
    ensures volts { IfOk result (λ stage. (i : ℕ) → (net_of circuit.now).free i ≡ true → i < (net_of circuit.now).nodes → voltage (line_of stage.lines.items i) from ≡ voltage (line_of lines.items i) from) }
    ensures count_pieces { OnOk result (length pieces.new.items ≡ (net_of circuit.now).nodes) }
    ensures pieces { IfOk result (λ stage. PiecesGo (net_of circuit.now) from (map (λ v. v.items) pieces.new.items) stage.lines.items) }
    ensures only { OnOk result
        (OnlyFree (net_of circuit.now) (map (λ v. v.items) pieces.new.items)) }
    ensures steps { OnOk result (steps.new ≡ steps.old + line_count (map (λ v. v.items) pieces.new.items)) }
{
    let driven = driven_nodes(alloc, circuit)?;
    let all = all_devices(alloc, circuit)?;
    let mut rates = vec![in alloc; 0; lines.len()]?;
    let mut cells = Vec::new(alloc);
    let mut amps = Vec::new(alloc);
    let mut dues = Queue::new(alloc);
    let mut bends = Queue::new(alloc);
    let mut turned = Vec::new(alloc);
    let mut looks = Vec::new(alloc);
    bend(
        circuit, &driven, &mut lines, &mut bends, &mut looks, from, end,
    )?;
    first_cells(
        circuit,
        &lines,
        &mut cells,
        &mut amps,
        &mut rates,
        &mut turned,
        from,
        end,
    )?;
    set_out(alloc, circuit, &rates, &mut lines, pieces, steps, from, end)?;
    look(circuit, &all, &lines, &cells, &mut dues, from, end)?;
    Ok(Stage {
        lines,
        cells,
        amps,
        rates,
        dues,
        bends,
        due: Vec::new(alloc),
        bent: Vec::new(alloc),
        turned,
        looks,
    })
}
