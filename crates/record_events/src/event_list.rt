ghost use Rattle.std.specs.Prelude.{◌≡◌, map, All, IfOk, IsTrue};
ghost use Rattle.semantics.specs.RecordWave.{record_events};
ghost use Rattle.semantics.specs.Valid.{is_valid};
ghost use Rattle.circuit_model.specs.Names.{AreNames, HasNodes};
ghost use Rattle.histories.specs.Record.{keeps, pair_at};
ghost use Rattle.circuit_model.specs.Records.{record_of, IsRecordOf};
ghost use Rattle.record_events.specs.Changes.{event_by, IsChange};

use crate::changes::changes;
use circuit_model::{Circuit, Event};
use event_order::merge;
use fault_sweep::cells_from;
use histories::Histories;
use std::alloc::{AllocError, Global};

/// The events of a record, by tick and then by the place of the device among the elements: each device that is in other
/// cells at a tick, from tick 1 to the stop, than at the tick before, with its cells at both. The record goes to the stop
/// tick of the circuit's deck and keeps each free node, with any voltages.
///
/// It goes through each device once, from crossing to crossing and not from tick to tick, and then takes the time to sort
/// the events.
pub fn events(alloc: Global, circuit: &Circuit, past: &Histories) -> Result<Vec<Event>, AllocError>
    requires { IsRecordOf circuit.now past.now.stop (keeps past.now) }
    ensures { IfOk result (λ found.
        found.items ≡ record_events circuit.now.deck (record_of circuit.now (pair_at past.now))) }
{
    known(circuit);
    let lists = changes(alloc, circuit, past)?;
    let merged = merge(alloc, &lists)?;
    told(alloc, circuit, past, &merged)
}

/// The events of these changes, in their order.
fn told(
    alloc: Global,
    circuit: &Circuit,
    past: &Histories,
    changes: &[(u64, u32)],
) -> Result<Vec<Event>, AllocError>
    requires record { IsRecordOf circuit.now past.now.stop (keeps past.now) }
    requires changes { All (IsChange circuit.now) changes.now }
    ensures { IfOk result (λ found.
        found.items ≡ map (event_by circuit.now past.now) changes.now) }
{
    let mut found = Vec::with_capacity(alloc, changes.len())?;
    for change in changes {
        found.push(event(circuit, past, *change))?;
    }
    Ok(found)
}

/// The event of a change: the cells of its device at the tick before and at the tick.
fn event(circuit: &Circuit, past: &Histories, change: (u64, u32)) -> Event
    requires record { IsRecordOf circuit.now past.now.stop (keeps past.now) }
    requires change { IsChange circuit.now change }
    ensures { result ≡ event_by circuit.now past.now change }
{
    let (tick, device) = change;
    Event {
        tick,
        place: circuit.device_place(device),
        old: cells_from(circuit, past, device, tick - 1).cells,
        new: cells_from(circuit, past, device, tick).cells,
    }
}

/// What a circuit holds of its deck and its numbers.
fn known(circuit: &Circuit)
    ensures valid { IsTrue (is_valid circuit.now.deck) }
    ensures names { AreNames circuit.now.names }
    ensures nodes { HasNodes circuit.now.deck circuit.now.names }
{
    circuit.stop();
    circuit.node_count();
}
