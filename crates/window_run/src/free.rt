ghost use Rattle.std.specs.Prelude.{◌≡◌, ℕ, IfOk};
ghost use Rattle.std.specs.List.{All, Contains};
ghost use Rattle.circuit_model.specs.declared.node_kind.NodeKind.{NodeKind};
ghost use Rattle.circuit_model.specs.Numbers.{kind_at};
ghost use Rattle.window_run.specs.Circuit.{free_numbers, is_free_kind};
ghost use Rattle.window_run.specs.Window.{AreDifferent};

use circuit_model::{Circuit, NodeKind};
use std::alloc::{AllocError, Global};

/// The numbers of the free nodes of a circuit, which are the nodes of a task.
///
/// # Errors
///
/// Where memory is wanting.
pub fn free_nodes(alloc: Global, circuit: &Circuit) -> Result<Vec<u32>, AllocError>
    ensures nodes { IfOk result (λ nodes. nodes.items ≡ free_numbers circuit.now) }
    ensures free { IfOk result (λ nodes.
        All (λ i. kind_at circuit.now i ≡ NodeKind.Free) nodes.items) }
    ensures different { IfOk result (λ nodes. AreDifferent nodes.items) }
    ensures all { IfOk result (λ nodes. (i : ℕ)
        → kind_at circuit.now i ≡ NodeKind.Free → Contains nodes.items i) }
{
    let mut nodes = Vec::new(alloc);
    for node in 0..circuit.node_count() {
        if is_free(circuit, node) {
            nodes.push(node)?;
        }
    }
    Ok(nodes)
}

/// Whether a number is that of a free node.
fn is_free(circuit: &Circuit, node: u32) -> bool
    ensures { result ≡ is_free_kind (kind_at circuit.now node) }
{
    match circuit.kind(node) {
        NodeKind::Free => true,
        NodeKind::Driven | NodeKind::Absent => false,
    }
}
