//! The lines with which the nodes of a circuit set out.

ghost use Rattle.std.specs.Prelude.{◌≡◌, ◌≤◌, ◌<◌, ◌+◌, ◌*◌, ◌^◌, ℕ, pos, length, unsigned_abs, IfOk, IsTrue};
ghost use Rattle.circuit_model.specs.declared.node_kind.NodeKind.{NodeKind};
ghost use Rattle.circuit_model.specs.Numbers.{kind_at};
ghost use Rattle.circuit_model.specs.Records.{IsRecordOf};
ghost use Rattle.histories.specs.Record.{keeps};
ghost use Rattle.window_run.specs.Intake.{AreFirst, IsFirst};

use circuit_model::{Circuit, Line, NodeKind};
use histories::Histories;
use std::alloc::{AllocError, Global};

/// The first lines of all numbers, at a tick of a record.
pub(crate) fn first_lines(
    alloc: Global,
    circuit: &Circuit,
    past: &Histories,
    from: u64,
) -> Result<Vec<Line>, AllocError>
    requires record { IsRecordOf circuit.now past.now.stop (keeps past.now) }
    requires tick { from ≤ circuit.now.deck.stop }
    ensures count { IfOk result (λ lines. length lines.items ≡ length circuit.now.names) }
    ensures first { IfOk result (λ lines. AreFirst circuit.now past.now from lines.items) }
{
    let mut lines = Vec::new(alloc);
    for node in 0..circuit.node_count() {
        lines.push(first_line(circuit, past, node, from))?;
    }
    Ok(lines)
}

/// The line with which a node sets out: it begins at its voltage in the record, without a slope. A node that is not free
/// has a line that is not looked at.
fn first_line(circuit: &Circuit, past: &Histories, node: u32, from: u64) -> Line
    requires record { IsRecordOf circuit.now past.now.stop (keeps past.now) }
    requires tick { from ≤ circuit.now.deck.stop }
    ensures { IsFirst circuit.now past.now from node result }
{
    match circuit.kind(node) {
        NodeKind::Free => {
            let (num, den) = past.at(node, from);
            still(from, num, den)
        }
        _ => still(from, 0, 1),
    }
}

/// The line from a tick on that stays where it is.
fn still(start: u64, num: i128, den: u64) -> Line
    ensures { result ≡ record { start = start; num = num; rate = pos 0; den = den } }
{
    Line {
        start,
        num,
        rate: 0,
        den,
    }
}
