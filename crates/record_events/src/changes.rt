//! The ticks at which devices come into other cells, each with the number of its device.

ghost use Rattle.std.specs.Prelude.{◌≡◌, ◌<◌, [], ◌∷◌, ◌++◌, if◌then◌else◌, length, IfOk, OnOk};
ghost use Rattle.std.specs.List.{flat_map};
ghost use Rattle.semantics.specs.Event.{same_cells};
ghost use Rattle.circuit_model.specs.Numbers.{devices};
ghost use Rattle.histories.specs.Record.{keeps};
ghost use Rattle.circuit_model.specs.Records.{IsRecordOf};
ghost use Rattle.record_events.specs.Changes.{changes_of, changes_to};

use circuit_model::Circuit;
use fault_sweep::cells_from;
use histories::Histories;
use std::alloc::{AllocError, Global};

/// The changes of each device, device by device.
pub(crate) fn changes(
    alloc: Global,
    circuit: &Circuit,
    past: &Histories,
) -> Result<Vec<Vec<(u64, u32)>>, AllocError>
    requires { IsRecordOf circuit.now past.now.stop (keeps past.now) }
    ensures { IfOk result (λ lists. flat_map (λ changes. changes.items) lists.items
        ≡ changes_of circuit.now past.now (length (devices circuit.now.deck))) }
{
    let mut lists = Vec::new(alloc);
    for device in 0..circuit.device_count() {
        lists.push(device_changes(alloc, circuit, past, device)?)?;
    }
    Ok(lists)
}

/// The changes of a device up to the stop. It goes from where the device leaves its cells, or a line of one of its ends
/// ends, to where that is next so.
fn device_changes(
    alloc: Global,
    circuit: &Circuit,
    past: &Histories,
    device: u32,
) -> Result<Vec<(u64, u32)>, AllocError>
    requires record { IsRecordOf circuit.now past.now.stop (keeps past.now) }
    requires device { device < length (devices circuit.now.deck) }
    ensures { IfOk result (λ changes.
        changes.items ≡ changes_to circuit.now past.now device circuit.now.deck.stop) }
{
    let mut changes = Vec::new(alloc);
    let mut stay = cells_from(circuit, past, device, 0);
    while stay.until <= circuit.stop() {
        let next = cells_from(circuit, past, device, stay.until);
        note(&mut changes, stay.until, device, stay.cells, next.cells)?;
        stay = next;
    }
    Ok(changes)
}

/// Puts last that a device comes at this tick from its old cells into its new ones, where they differ.
fn note(
    changes: &mut Vec<(u64, u32)>,
    tick: u64,
    device: u32,
    old: (u32, u32),
    new: (u32, u32),
) -> Result<(), AllocError>
    ensures { OnOk result (changes.new.items
        ≡ changes.old.items ++ (if same_cells old new then [] else (tick, device) ∷ [])) }
{
    if old != new {
        changes.push((tick, device))?;
    }
    Ok(())
}
