//! A circuit's nodes and devices by their numbers.

ghost use Rattle.std.specs.Prelude.{◌≡◌, ◌≤◌, ◌<◌, ◌^◌, [], length, option_map, unwrap_or, unsigned_abs};
ghost use Rattle.window_run.specs.Circuit.{IsNumbered, net_of};
ghost use Rattle.window_run.specs.Net.{IsNet};

use circuit_model::{Circuit, Ends, NodeKind};
use device_tables::Grid;

/// The number of names by which the nodes are numbered.
#[tactic(auto, unfolding(crate::specs::Circuit::net_of))]
pub(crate) fn node_count(circuit: &Circuit) -> u32
    ensures { result ≡ (net_of circuit.now).nodes }
{
    circuit.node_count()
}

/// The number of devices.
#[tactic(auto, unfolding(crate::specs::Circuit::net_of))]
pub(crate) fn device_count(circuit: &Circuit) -> u32
    ensures { result ≡ (net_of circuit.now).devices }
{
    circuit.device_count()
}

/// Whether a number is that of a free node.
#[tactic(auto, unfolding(crate::specs::Circuit::net_of))]
pub(crate) fn is_free(circuit: &Circuit, node: u32) -> bool
    ensures { result ≡ (net_of circuit.now).free node }
{
    match circuit.kind(node) {
        NodeKind::Free => true,
        NodeKind::Driven | NodeKind::Absent => false,
    }
}

/// Whether a number is that of a driven node.
#[tactic(auto, unfolding(crate::specs::Circuit::net_of))]
pub(crate) fn is_driven(circuit: &Circuit, node: u32) -> bool
    ensures { result ≡ (net_of circuit.now).driven node }
{
    match circuit.kind(node) {
        NodeKind::Driven => true,
        NodeKind::Free | NodeKind::Absent => false,
    }
}

/// Where the ends of a device lead.
#[tactic(auto, unfolding(crate::specs::Circuit::net_of))]
pub(crate) fn ends(circuit: &Circuit, device: u32) -> Ends
    requires { device < (net_of circuit.now).devices }
    ensures first { result.first ≡ (net_of circuit.now).first device }
    ensures second { result.second ≡ (net_of circuit.now).second device }
    ensures gate { result.gate ≡ (net_of circuit.now).gate device }
{
    circuit.ends(device)
}

/// The devices at a node.
#[tactic(auto, unfolding(crate::specs::Circuit::net_of))]
pub(crate) fn near<'c>(circuit: &'c Circuit, node: u32) -> &'c [u32]
    requires { node < (net_of circuit.now).nodes }
    ensures { result.now ≡ (net_of circuit.now).near node }
{
    circuit.near(node)
}

/// The grid of gate less second end, where the device has a gate.
#[tactic(auto, unfolding(crate::specs::Circuit::net_of))]
pub(crate) fn gate_grid<'c>(circuit: &'c Circuit, device: u32) -> Option<&'c Grid>
    requires { device < (net_of circuit.now).devices }
    ensures { unwrap_or (option_map (λ g. g.now) result) [] ≡ (net_of circuit.now).gate_grid device }
{
    circuit.gate_grid(device)
}

/// The grid of first end less second.
#[tactic(auto, unfolding(crate::specs::Circuit::net_of))]
pub(crate) fn drain_grid<'c>(circuit: &'c Circuit, device: u32) -> &'c Grid
    requires { device < (net_of circuit.now).devices }
    ensures { result.now ≡ (net_of circuit.now).drain_grid device }
{
    circuit.drain_grid(device)
}

/// What flows through a device in these cells.
#[tactic(auto, unfolding(crate::specs::Circuit::net_of))]
pub(crate) fn current(circuit: &Circuit, device: u32, gate_cell: u32, drain_cell: u32) -> i64
    requires device { device < (net_of circuit.now).devices }
    requires gate { gate_cell ≤ length ((net_of circuit.now).gate_grid device) }
    requires drain { drain_cell ≤ length ((net_of circuit.now).drain_grid device) }
    ensures { result ≡ (net_of circuit.now).amps device (gate_cell, drain_cell) }
{
    circuit.device_current(device, gate_cell, drain_cell)
}

/// A circuit holds what is asked of it.
pub(crate) fn known(circuit: &Circuit)
    ensures net { IsNet (net_of circuit.now) }
    ensures numbered { IsNumbered circuit.now }
{
    circuit.stop();
    circuit.node_count();
    circuit.device_count();
}
