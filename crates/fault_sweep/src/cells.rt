ghost use Rattle.std.specs.Prelude.{◌≤◌, ◌<◌, length, IsTrue};
ghost use Rattle.semantics.specs.Valid.{is_valid};
ghost use Rattle.circuit_model.specs.Names.{AreNames, HasNodes};
ghost use Rattle.circuit_model.specs.Numbers.{devices};
ghost use Rattle.fault_sweep.specs.CellStays.{IsCellStay};
ghost use Rattle.histories.specs.Record.{keeps};
ghost use Rattle.circuit_model.specs.Records.{IsRecordOf};

use crate::cell_stay::CellStay;
use crate::course::Course;
use crate::hold::{drain_stay, gate_stay};
use circuit_model::Circuit;
use histories::Histories;

/// The cells of a device at a tick up to the stop, by the record, and a later tick before which it stays in them: at most
/// the tick after the stop. A resistor's are its cell and 0, a MOS device's those of its gate and of its drain.
pub fn cells_from(circuit: &Circuit, past: &Histories, device: u32, now: u64) -> CellStay
    requires record { IsRecordOf circuit.now past.now.stop (keeps past.now) }
    requires device { device < length (devices circuit.now.deck) }
    requires tick { now ≤ circuit.now.deck.stop }
    ensures { IsCellStay circuit.now past.now device now result }
{
    known(circuit);
    let second = Course::of(circuit, past, circuit.ends(device).second, now);
    let gate = gate_stay(circuit, past, device, &second, now);
    let drain = drain_stay(circuit, past, device, &second, now);
    CellStay {
        cells: circuit.axes(device, gate.cell, drain.cell),
        until: gate.until.min(drain.until),
    }
}

/// What a circuit holds of its deck and its numbers.
fn known(circuit: &Circuit)
    ensures valid { IsTrue (is_valid circuit.now.deck) }
    ensures names { AreNames circuit.now.names }
    ensures nodes { HasNodes circuit.now.deck circuit.now.names }
{
    circuit.stop();
    circuit.node_count();
}
