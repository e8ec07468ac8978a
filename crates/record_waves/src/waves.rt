ghost use Rattle.std.specs.Prelude.{◌≡◌, ◌≤◌, ◌<◌, ℕ, IfOk};
ghost use Rattle.semantics.specs.Wave.{wave};
ghost use Rattle.circuit_model.specs.Drive.{drive_of};
ghost use Rattle.circuit_model.specs.Numbers.{kind_at, name_at};
ghost use Rattle.record_waves.specs.RunRecord.{IsRunOf, IsTurnBefore};

use circuit_model::{Circuit, Line, NodeKind};
use histories::Histories;
use std::alloc::{AllocError, Global};

/// The wave of a node up to the stop, which is after tick 0: that of a free node is in the record, and that of a driven
/// node in its source.
pub fn wave(
    alloc: Global,
    circuit: &Circuit,
    past: &Histories,
    node: u32,
) -> Result<Vec<Line>, AllocError>
    requires node { kind_at circuit.now node ≡ NodeKind.Absent → ⊥ }
    requires run { IsRunOf circuit.now past.now }
    requires stop { 0 < circuit.now.deck.stop }
    ensures { IfOk result (λ lines. lines.items ≡ wave circuit.now.deck (name_at circuit.now node)) }
{
    let stop = circuit.stop();
    prove!(0 < stop);
    circuit.node_count();
    match circuit.kind(node) {
        NodeKind::Free => past.canonical(node),
        NodeKind::Driven | NodeKind::Absent => driven_wave(alloc, circuit, node),
    }
}

/// The wave of a driven node: the line of tick 0, and one at each later tick before the stop at which its source turns.
fn driven_wave(alloc: Global, circuit: &Circuit, node: u32) -> Result<Vec<Line>, AllocError>
    requires { kind_at circuit.now node ≡ NodeKind.Driven }
    ensures { IfOk result (λ lines. lines.items ≡ wave circuit.now.deck (name_at circuit.now node)) }
{
    let mut lines = Vec::new(alloc);
    lines.push(circuit.drive(node, 0))?;
    let mut tick = 0;
    while let Some(turn) = next_turn(circuit, node, tick) {
        lines.push(circuit.drive(node, turn))?;
        tick = turn;
    }
    Ok(lines)
}

/// The next tick before the stop at which the line of a driven node turns.
fn next_turn(circuit: &Circuit, node: u32, tick: u64) -> Option<u64>
    requires driven { kind_at circuit.now node ≡ NodeKind.Driven }
    requires tick { tick ≤ circuit.now.deck.stop }
    ensures { IsTurnBefore (drive_of circuit.now.deck (name_at circuit.now node)) circuit.now.deck.stop tick result }
{
    match circuit.next_point(node, tick) {
        Some(turn) if turn < circuit.stop() => Some(turn),
        _ => None,
    }
}
