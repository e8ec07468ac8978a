ghost use Rattle.std.specs.Prelude.{◌≡◌, ◌≤◌, ◌<◌, ◌+◌, ◌^◌, length, pos, unsigned_abs};
ghost use Rattle.circuit_model.specs.declared.node_kind.NodeKind.{NodeKind};
ghost use Rattle.circuit_model.specs.Numbers.{devices, kind_at};
ghost use Rattle.circuit_model.specs.Wiring.{inflow};
ghost use Rattle.fault_sweep.specs.Records.{IsBasis};
ghost use Rattle.fault_sweep.specs.Stretches.{drain_cells, gate_cells, AreHolds, AreOn};
ghost use Rattle.fault_sweep.specs.Stretches.{IsHold, IsSecond, IsStay};

use crate::course::{Course, past_stop};
use crate::stay::Stay;
use circuit_model::{Circuit, Ends};
use histories::Histories;

/// What flows into a node through one of its devices from a tick on, and the tick before which it stays so.
#[derive(Clone, Copy)]
pub(crate) struct Hold {
    pub(crate) inflow: i64,
    pub(crate) until: u64,
}

impl Hold {
    /// One that lasts for no tick from this one on.
    pub(crate) fn over(now: u64) -> Hold
        ensures inflow { result.inflow ≡ pos 0 }
        ensures until { result.until ≡ now }
    {
        Hold {
            inflow: 0,
            until: now,
        }
    }

    /// What flows in through a device from this tick on.
    fn of(circuit: &Circuit, past: &Histories, node: u32, device: u32, now: u64) -> Hold
        requires basis { IsBasis circuit.now past.now }
        requires device { device < length (devices circuit.now.deck) }
        requires tick { now < circuit.now.deck.stop }
        ensures hold { IsHold circuit.now past.now node device now result }
        ensures on { now < result.until }
    {
        let ends = circuit.ends(device);
        let second = Course::of(circuit, past, ends.second, now);
        let gate = gate_stay(circuit, past, device, &second, now);
        let drain = drain_stay(circuit, past, device, &second, now);
        let amps = circuit.device_current(device, gate.cell, drain.cell);
        Hold {
            inflow: gain(node, &ends, amps),
            until: gate.until.min(drain.until),
        }
    }
}

/// Renews each that is over by this tick, of the devices near a node.
pub(crate) fn renew(circuit: &Circuit, past: &Histories, node: u32, holds: &mut [Hold], now: u64)
    requires basis { IsBasis circuit.now past.now }
    requires node { node < length circuit.now.names }
    requires holds { AreHolds circuit.now past.now node now holds.old }
    requires tick { now < circuit.now.deck.stop }
    ensures holds { AreHolds circuit.now past.now node now holds.new }
    ensures on { AreOn (length holds.new) now holds.new }
{
    let near = circuit.near(node);
    for k in 0..near.len() {
        if holds[k].until <= now {
            holds[k] = Hold::of(circuit, past, node, near[k], now);
        }
    }
}

/// The stay of the gate of a device less its second end. A resistor has none, and is in cell 0 up to the stop.
pub(crate) fn gate_stay(
    circuit: &Circuit,
    past: &Histories,
    device: u32,
    second: &Course,
    now: u64,
) -> Stay
    requires basis { IsBasis circuit.now past.now }
    requires device { device < length (devices circuit.now.deck) }
    requires second { IsSecond circuit.now past.now device now second.now }
    requires tick { now ≤ circuit.now.deck.stop }
    ensures { IsStay (gate_cells circuit.now past.now device) now result }
{
    let Some(grid) = circuit.gate_grid(device) else {
        return Stay {
            cell: 0,
            until: past_stop(circuit),
        };
    };
    let gate = Course::of(circuit, past, circuit.ends(device).gate, now);
    Stay::between(&gate, second, grid, now)
}

/// The stay of the first end of a device less its second.
pub(crate) fn drain_stay(
    circuit: &Circuit,
    past: &Histories,
    device: u32,
    second: &Course,
    now: u64,
) -> Stay
    requires basis { IsBasis circuit.now past.now }
    requires device { device < length (devices circuit.now.deck) }
    requires second { IsSecond circuit.now past.now device now second.now }
    requires tick { now ≤ circuit.now.deck.stop }
    ensures stay { IsStay (drain_cells circuit.now past.now device) now result }
    ensures by_stop { result.until ≤ circuit.now.deck.stop + 1 }
{
    let first = Course::of(circuit, past, circuit.ends(device).first, now);
    Stay::between(&first, second, circuit.drain_grid(device), now)
}

/// What flows into a node, of a current out of the first of these ends into the second.
fn gain(node: u32, ends: &Ends, amps: i64) -> i64
    requires { unsigned_abs amps ≤ 10 ^ 12 }
    ensures value { result ≡ inflow node ends.now amps }
    ensures small { unsigned_abs result ≤ 10 ^ 12 }
{
    let gained = if ends.second == Some(node) { amps } else { 0 };
    let lost = if ends.first == Some(node) { amps } else { 0 };
    gained - lost
}
