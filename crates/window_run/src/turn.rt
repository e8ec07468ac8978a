ghost use Rattle.std.specs.Prelude.{◌≡◌, ◌≢◌, IsTrue, IsFalse, ◌++◌, ◌∷◌, IfOk, ◌⊎◌, ◌<◌, ◌≤◌, ◌+◌, ◌*◌, ◌^◌, ℕ, [], pos, true, length, map, slice_index_or, unsigned_abs, OnOk};
ghost use Rattle.window_run.specs.Net.{IsNet};
ghost use Rattle.node_ramps.specs.Lines.{turned, InBounds};
ghost use Rattle.histories.specs.Track.{line_of};
ghost use Rattle.window_run.specs.Pieces.{last_of, Counts, OthersKept, PiecesGo, PiecesKept};
ghost use Rattle.window_run.specs.Stage.{AreBounded, AreLines, AreSlow, IsFrom, Keeps, LineSameOrNear, LinesBut, SameDriven, SameVolts};
ghost use Rattle.window_run.specs.Circuit.{net_of};

use crate::wiring::{is_free, near};
use circuit_model::Circuit;
use node_ramps::{Ramp, Steps};
use semantics::Line;
use std::alloc::AllocError;
use std::sync::ledger::Ledger;

/// Turns the lines of these nodes to their rates, and notes the devices near them.
pub(crate) fn turn<L: Ledger>(
    circuit: &Circuit,
    todo: &[u32],
    rates: &[i128],
    lines: &mut [Line],
    pieces: &mut [Vec<Ramp>],
    looks: &mut Vec<u32>,
    steps: &mut Steps<L>,
    from: u64,
    now: u64,
    end: u64,
) -> Result<(), AllocError>
    requires net { IsNet (net_of circuit.now) }
    requires count_lines { length lines.old ≡ (net_of circuit.now).nodes }
    requires count_rates { length rates.now ≡ (net_of circuit.now).nodes }
    requires count_pieces { length pieces.old ≡ (net_of circuit.now).nodes }
    requires lines { AreLines lines.old now end }
    requires end { end ≤ (net_of circuit.now).stop }
    requires rates { (i : ℕ) → i < (net_of circuit.now).nodes → (net_of circuit.now).free i ≡ true → unsigned_abs (slice_index_or rates.now i (pos 0)) ≤ 10 ^ 15 }
    requires nums { AreBounded (net_of circuit.now) lines.old now }
    requires slow { AreSlow (net_of circuit.now) lines.old }
    requires early { (i : ℕ) → i < (net_of circuit.now).nodes → (net_of circuit.now).free i ≡ true → (line_of lines.old i).start < now }
    requires pieces { PiecesGo (net_of circuit.now) from (map (λ v. v.items) pieces.old) lines.old }
    requires todo { LinesBut todo.now (net_of circuit.now) lines.old rates.now }
    ensures lines { OnOk result (AreLines lines.new now end) }
    ensures slow { OnOk result (AreSlow (net_of circuit.now) lines.new) }
    ensures nums { OnOk result (AreBounded (net_of circuit.now) lines.new now) }
    ensures todo { OnOk result (LinesBut [] (net_of circuit.now) lines.new rates.now) }
    ensures volts { OnOk result (SameVolts lines.old lines.new now) }
    ensures driven { OnOk result (SameDriven (net_of circuit.now) lines.old lines.new) }
    ensures looks { OnOk result (LineSameOrNear (net_of circuit.now) lines.old lines.new looks.new.items) }
    ensures from { OnOk result (IsFrom (net_of circuit.now) looks.old.items looks.new.items) }
    ensures kept { OnOk result (Keeps looks.old.items looks.new.items) }
    ensures pieces { OnOk result (PiecesGo (net_of circuit.now) from (map (λ v. v.items) pieces.new) lines.new) }
    ensures kept_pieces { OnOk result (PiecesKept (net_of circuit.now) (map (λ v. v.items) pieces.old) (map (λ v. v.items) pieces.new) now) }
    ensures others { OnOk result (OthersKept (net_of circuit.now)
        (map (λ v. v.items) pieces.old) (map (λ v. v.items) pieces.new)) }
    ensures steps { OnOk result (Counts steps.old steps.new (map (λ v. v.items) pieces.old) (map (λ v. v.items) pieces.new)) }
{
    for node in todo {
        let i = *node as usize;
        if turns(circuit, *node, rates, lines) {
            looks.extend_from_slice(near(circuit, *node))?;
            lines[i] = turn_piece(&mut pieces[i], now, rates[i], steps)?;
        }
    }
    Ok(())
}

/// Whether a node is free and has another rate than its line.
fn turns(circuit: &Circuit, node: u32, rates: &[i128], lines: &[Line]) -> bool
    requires net { IsNet (net_of circuit.now) }
    requires count_lines { length lines.now ≡ (net_of circuit.now).nodes }
    requires count_rates { length rates.now ≡ (net_of circuit.now).nodes }
    ensures yes { IsTrue result → ((net_of circuit.now).free node ≡ true) × (slice_index_or rates.now node (pos 0) ≢ (line_of lines.now node).rate) }
    ensures no { IsFalse result → (net_of circuit.now).free node ≡ true → (line_of lines.now node).rate ≡ slice_index_or rates.now node (pos 0) }
{
    is_free(circuit, node) && rates[node as usize] != lines[node as usize].rate
}

/// Lets the last ramp of a piece turn at this tick, counted.
fn turn_piece<L: Ledger>(
    piece: &mut Vec<Ramp>,
    now: u64,
    rate: i128,
    steps: &mut Steps<L>,
) -> Result<Line, AllocError>
    requires some { 0 < length piece.old.items }
    requires in_bounds { InBounds (last_of piece.old.items) now }
    ensures line { IfOk result (λ l. l ≡ turned (last_of piece.old.items) now rate) }
    ensures piece { OnOk result (piece.new.items ≡ piece.old.items ++ turned (last_of piece.old.items) now rate ∷ []) }
    ensures counted { OnOk result (steps.new ≡ steps.old + 1) }
{
    piece.reserve(1)?;
    let ramp = piece[piece.len() - 1].next(now, rate, steps);
    piece.push_reserved(ramp);
    Ok(ramp.line())
}
