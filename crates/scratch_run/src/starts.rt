//! The record with which a run begins.

ghost use Rattle.std.specs.Prelude.{◌≡◌, ◌<◌, ◌^◌, length, IfOk, OnOk};
ghost use Rattle.scratch_run.specs.Starts.{HasFirst, HasStarted};

use circuit_model::{Circuit, NodeKind};
use histories::Histories;
use std::alloc::{AllocError, Global};

/// The record up to the stop of the deck that has of each free node its first voltage.
pub(crate) fn started(alloc: Global, circuit: &Circuit) -> Result<Histories, AllocError>
    ensures stop { IfOk result (λ past. past.stop ≡ circuit.now.deck.stop) }
    ensures first { IfOk result (λ past. HasFirst circuit.now past (length circuit.now.names)) }
{
    let mut past = Histories::new(alloc, circuit.stop());
    for node in 0..circuit.node_count() {
        start_node(circuit, node, &mut past)?;
    }
    Ok(past)
}

/// Starts the record of a node, where it is free.
fn start_node(circuit: &Circuit, node: u32, past: &mut Histories) -> Result<(), AllocError>
    ensures stop { OnOk result (past.new.stop ≡ past.old.stop) }
    ensures started { OnOk result (HasStarted circuit.now node past.old past.new) }
{
    match circuit.kind(node) {
        NodeKind::Free => past.start(node, circuit.start(node), circuit.capacity(node)),
        NodeKind::Driven | NodeKind::Absent => Ok(()),
    }
}
