ghost use Rattle.std.specs.Prelude.{◌≡◌, ◌≤◌, ◌<◌, ◌^◌, unsigned_abs, IfOk, IsTrue};
ghost use Rattle.circuit_model.specs.declared.node_kind.NodeKind.{NodeKind};
ghost use Rattle.circuit_model.specs.Numbers.{kind_at};
ghost use Rattle.histories.specs.Record.{keeps, pair_at};
ghost use Rattle.fault_sweep.specs.Records.{current_at, has_fault};
ghost use Rattle.circuit_model.specs.Records.{IsRecordOf};
ghost use Rattle.fault_sweep.specs.Records.{AreFaults, IsBasis};
ghost use Rattle.fault_sweep.specs.Stretches.{AreHolds, IsStraightTo, IsStretch};

use crate::hold::{Hold, renew};
use crate::inflow::Inflow;
use circuit_model::Circuit;
use histories::Histories;
use regions::Spans;
use std::alloc::{AllocError, Global};

/// The faults of a free node from tick `a` to before tick `b`: the ticks at which its denominator is not its
/// capacitance, there or at the next tick, or from which its charge does not gain what flows in by the record. The
/// record goes to the stop tick of the circuit's deck and keeps each free node, with any voltages.
///
/// It goes from stretch to stretch and not from tick to tick: to where a line of the node or of an end of one of its
/// devices ends, or one of these devices comes into another cell.
pub fn faults(
    alloc: Global,
    circuit: &Circuit,
    past: &Histories,
    node: u32,
    a: u64,
    b: u64,
) -> Result<Spans, AllocError>
    requires node { kind_at circuit.now node ≡ NodeKind.Free }
    requires record { IsRecordOf circuit.now past.now.stop (keeps past.now) }
    requires order { a ≤ b }
    requires stop { b ≤ circuit.now.deck.stop }
    ensures { IfOk result (AreFaults circuit.now past.now node a b) }
{
    prove!(node < circuit.node_count());
    prove!(b <= circuit.stop());
    let mut holds = vec![in alloc; Hold::over(a); circuit.near(node).len()]?;
    sweep(alloc, circuit, past, node, &mut holds, a, b)
}

/// The faults of a node, where each of its devices has a hold at tick `a`.
fn sweep(
    alloc: Global,
    circuit: &Circuit,
    past: &Histories,
    node: u32,
    holds: &mut [Hold],
    a: u64,
    b: u64,
) -> Result<Spans, AllocError>
    requires basis { IsBasis circuit.now past.now }
    requires free { kind_at circuit.now node ≡ NodeKind.Free }
    requires holds { AreHolds circuit.now past.now node a holds.old }
    requires order { a ≤ b }
    requires stop { b ≤ circuit.now.deck.stop }
    ensures { IfOk result (AreFaults circuit.now past.now node a b) }
{
    let mut spans = Spans::new(alloc);
    let mut now = a;
    while now < b {
        let stretch = Stretch::next(circuit, past, node, holds, now, b);
        if stretch.is_fault {
            spans.add(now, stretch.until)?;
        }
        now = stretch.until;
    }
    Ok(spans)
}

/// Whether a node is at fault at each tick from one on, before this tick, or at none of them.
#[derive(Clone, Copy)]
struct Stretch {
    is_fault: bool,
    until: u64,
}

impl Stretch {
    /// The one from this tick on. Each hold that is over is renewed.
    fn next(
        circuit: &Circuit,
        past: &Histories,
        node: u32,
        holds: &mut [Hold],
        now: u64,
        end: u64,
    ) -> Stretch
        requires basis { IsBasis circuit.now past.now }
        requires free { kind_at circuit.now node ≡ NodeKind.Free }
        requires holds { AreHolds circuit.now past.now node now holds.old }
        requires order { now < end }
        requires stop { end ≤ circuit.now.deck.stop }
        ensures holds { AreHolds circuit.now past.now node now holds.new }
        ensures stretch { IsStretch circuit.now past.now node now end result }
    {
        renew(circuit, past, node, holds, now);
        let straight = straight_end(past, node, now, end);
        let Inflow { current, until } = Inflow::over(holds, straight);
        Stretch {
            is_fault: is_fault(circuit, past, node, now, current),
            until,
        }
    }
}

/// A tick up to which a node's own voltages go straight on from this one, and else the next tick.
fn straight_end(past: &Histories, node: u32, now: u64, end: u64) -> u64
    requires kept { IsTrue (keeps past.now node) }
    requires order { now < end }
    requires stop { end ≤ past.now.stop }
    ensures { IsStraightTo (pair_at past.now node) past.now.stop now end result }
{
    past.line_end(node, now).max(now + 1).min(end)
}

/// Whether a node is at fault at a tick, where this flows into it.
fn is_fault(circuit: &Circuit, past: &Histories, node: u32, now: u64, current: i128) -> bool
    requires basis { IsBasis circuit.now past.now }
    requires free { kind_at circuit.now node ≡ NodeKind.Free }
    requires tick { now < circuit.now.deck.stop }
    requires current { current ≡ current_at circuit.now past.now node now }
    requires small { unsigned_abs current ≤ 10 ^ 17 }
    ensures { result ≡ has_fault circuit.now past.now node now }
{
    let capacity = circuit.capacity(node);
    let (num, den) = past.at(node, now);
    let (next_num, next_den) = past.at(node, now + 1);
    if den != capacity || next_den != capacity {
        return true;
    }
    next_num != num + current
}
