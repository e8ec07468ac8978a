ghost use Rattle.std.specs.Prelude.{◌≡◌, ◌<◌, ◌≤◌, ◌^◌, [], true, length, All, OnOk};
ghost use Rattle.node_ramps.specs.Lines.{InBounds};
ghost use Rattle.window_run.specs.Net.{IsNet};
ghost use Rattle.window_run.specs.Stage.{AreLater, AreLines, Before, BendsBut, IsFrom, IsTrusted, Keeps, LineSameOrNear, OnlyDriven, SameFree};
ghost use Rattle.window_run.specs.Circuit.{net_of};

use crate::wait::schedule;
use crate::wiring::near;
use circuit_model::Circuit;
use event_order::Queue;
use semantics::Line;
use std::alloc::AllocError;

/// The line of a driven node from a tick on, and the next tick at which it is another one.
fn next_line(circuit: &Circuit, node: u32, now: u64, end: u64) -> (Line, Option<u64>)
    requires net { IsNet (net_of circuit.now) }
    requires node { node < (net_of circuit.now).nodes }
    requires driven { (net_of circuit.now).driven node ≡ true }
    requires order { now ≤ end }
    requires end { end ≤ (net_of circuit.now).stop }
    ensures trusted { IsTrusted ((net_of circuit.now).drive node) result.0 now end result.1 }
    ensures later { Before now result.1 }
    ensures start { result.0.start ≡ now }
    ensures bounds { InBounds result.0 end }
{
    (circuit.drive(node, now), circuit.next_point(node, now))
}

/// Gives these driven nodes the lines of their sources from this tick on, and notes the devices near them.
pub(crate) fn bend(
    circuit: &Circuit,
    todo: &[u32],
    lines: &mut [Line],
    bends: &mut Queue,
    looks: &mut Vec<u32>,
    now: u64,
    end: u64,
) -> Result<(), AllocError>
    requires net { IsNet (net_of circuit.now) }
    requires todo { All (λ i. (i < (net_of circuit.now).nodes) × ((net_of circuit.now).driven i ≡ true)) todo.now }
    requires lines { AreLines lines.old now end }
    requires count { length lines.old ≡ (net_of circuit.now).nodes }
    requires end { end ≤ (net_of circuit.now).stop }
    requires bends { BendsBut todo.now (net_of circuit.now) lines.old now end bends.old }
    requires later { AreLater bends.old now }
    requires driven { OnlyDriven (net_of circuit.now) bends.old }
    ensures lines { OnOk result (AreLines lines.new now end) }
    ensures bends { OnOk result (BendsBut [] (net_of circuit.now) lines.new now end bends.new) }
    ensures later { OnOk result (AreLater bends.new now) }
    ensures driven { OnOk result (OnlyDriven (net_of circuit.now) bends.new) }
    ensures free { OnOk result (SameFree (net_of circuit.now) lines.old lines.new) }
    ensures looks { OnOk result (LineSameOrNear (net_of circuit.now) lines.old lines.new looks.new.items) }
    ensures from { OnOk result (IsFrom (net_of circuit.now) looks.old.items looks.new.items) }
    ensures kept { OnOk result (Keeps looks.old.items looks.new.items) }
{
    for node in todo {
        looks.extend_from_slice(near(circuit, *node))?;
        let (line, next) = next_line(circuit, *node, now, end);
        schedule(bends, *node, next)?;
        lines[*node as usize] = line;
    }
    Ok(())
}
