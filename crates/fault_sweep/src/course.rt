ghost use Rattle.std.specs.Prelude.{◌≡◌, ◌≤◌, ◌<◌, ◌+◌, Some};
ghost use Rattle.circuit_model.specs.declared.node_kind.NodeKind.{NodeKind};
ghost use Rattle.circuit_model.specs.Numbers.{kind_at};
ghost use Rattle.fault_sweep.specs.Records.{IsBasis};
ghost use Rattle.fault_sweep.specs.Stretches.{ground, IsCourse, IsReal};

use circuit_model::{Circuit, NodeKind};
use histories::Histories;
use semantics::Line;

/// The line of an end of a device from a tick on, and the tick before which it has the voltages of that end.
#[derive(Clone, Copy)]
pub(crate) struct Course {
    pub(crate) line: Line,
    pub(crate) until: u64,
}

impl Course {
    /// That of an end from this tick on.
    pub(crate) fn of(circuit: &Circuit, past: &Histories, lead: Option<u32>, now: u64) -> Course
        requires basis { IsBasis circuit.now past.now }
        requires real { IsReal circuit.now lead }
        requires tick { now ≤ circuit.now.deck.stop }
        ensures { IsCourse circuit.now past.now lead now result }
    {
        let Some(node) = lead else {
            return Course::ground(circuit, now);
        };
        match circuit.kind(node) {
            NodeKind::Driven => Course::driven(circuit, past, node, now),
            NodeKind::Free => Course::free(circuit, past, node, now),
            NodeKind::Absent => unreachable!(),
        }
    }

    /// That of ground, up to the stop.
    fn ground(circuit: &Circuit, now: u64) -> Course
        ensures line { result.line ≡ ground now }
        ensures until { result.until ≡ circuit.now.deck.stop + 1 }
    {
        Course {
            line: Line {
                start: now,
                num: 0,
                rate: 0,
                den: 1,
            },
            until: past_stop(circuit),
        }
    }

    /// That of a node that a source drives, up to where its line turns.
    fn driven(circuit: &Circuit, past: &Histories, node: u32, now: u64) -> Course
        requires basis { IsBasis circuit.now past.now }
        requires driven { kind_at circuit.now node ≡ NodeKind.Driven }
        requires tick { now ≤ circuit.now.deck.stop }
        ensures { IsCourse circuit.now past.now (Some node) now result }
    {
        Course {
            line: circuit.drive(node, now),
            until: circuit.next_point(node, now).unwrap_or(past_stop(circuit)),
        }
    }

    /// That of a free node, up to the last tick of its line in the record.
    fn free(circuit: &Circuit, past: &Histories, node: u32, now: u64) -> Course
        requires basis { IsBasis circuit.now past.now }
        requires free { kind_at circuit.now node ≡ NodeKind.Free }
        requires tick { now ≤ circuit.now.deck.stop }
        ensures { IsCourse circuit.now past.now (Some node) now result }
    {
        Course {
            line: past.line(node, now),
            until: past.line_end(node, now) + 1,
        }
    }
}

/// The tick after the stop.
pub(crate) fn past_stop(circuit: &Circuit) -> u64
    ensures { result ≡ circuit.now.deck.stop + 1 }
{
    circuit.stop() + 1
}
