//! Cells of devices, and what flows into the nodes.

ghost use Rattle.std.specs.Prelude.{◌≡◌, ◌⊎◌, ◌<◌, ◌≤◌, ◌*◌, ◌^◌, ◌+ℤ◌, ◌-ℤ◌, ℕ, if◌then◌else◌, [], pos, length, slice_index_or, unsigned_abs, All, Contains, IsFalse, OnOk};
ghost use Rattle.window_run.specs.Net.{inflow, leads_to, IsNet};
ghost use Rattle.window_run.specs.Stage.{AmpsAre, AreLines, CellsBut, IsWithin, Keeps, RateSameOrNoted, RatesAre, SameBut};
ghost use Rattle.window_run.specs.Circuit.{net_of};

use crate::device::cells_now;
use crate::wiring::{current, device_count, ends};
use circuit_model::{Circuit, Ends};
use semantics::Line;
use std::alloc::AllocError;

/// Adds to what flows into the node of an end, and notes it.
fn give(
    rates: &mut [i128],
    turned: &mut Vec<u32>,
    end: Option<u32>,
    gain: i128,
) -> Result<(), AllocError>
    requires inside { IsWithin (length rates.old) end }
    requires small { (i : ℕ) → unsigned_abs (slice_index_or rates.old i (pos 0)) ≤ 5 * 10 ^ 18 }
    requires gain { unsigned_abs gain ≤ 4 * 10 ^ 12 }
    ensures rates { OnOk result ((i : ℕ) → slice_index_or rates.new i (pos 0) ≡ (slice_index_or rates.old i (pos 0)) +ℤ (if leads_to i end then gain else pos 0)) }
    ensures noted { OnOk result (RateSameOrNoted rates.old rates.new turned.new.items) }
    ensures kept { OnOk result (Keeps turned.old.items turned.new.items) }
{
    if let Some(node) = end {
        turned.push(node)?;
        rates[node as usize] += gain;
    }
    Ok(())
}

/// Lets more flow through a device, out of its first end and into its second, and notes their nodes.
fn let_flow(
    circuit: &Circuit,
    device: u32,
    gain: i128,
    rates: &mut [i128],
    turned: &mut Vec<u32>,
) -> Result<(), AllocError>
    requires net { IsNet (net_of circuit.now) }
    requires device { device < (net_of circuit.now).devices }
    requires count { length rates.old ≡ (net_of circuit.now).nodes }
    requires small { (i : ℕ) → unsigned_abs (slice_index_or rates.old i (pos 0)) ≤ 10 ^ 18 }
    requires gain { unsigned_abs gain ≤ 2 * 10 ^ 12 }
    ensures rates { OnOk result ((i : ℕ) → slice_index_or rates.new i (pos 0) ≡ (slice_index_or rates.old i (pos 0)) +ℤ inflow (net_of circuit.now) i device gain) }
    ensures noted { OnOk result (RateSameOrNoted rates.old rates.new turned.new.items) }
    ensures kept { OnOk result (Keeps turned.old.items turned.new.items) }
{
    let Ends { first, second, .. } = ends(circuit, device);
    give(rates, turned, first, -gain)?;
    give(rates, turned, second, gain)?;
    Ok(())
}

/// Whether these are not the same cells.
fn differ(old: (u32, u32), new: (u32, u32)) -> bool
    ensures { IsFalse result → old ≡ new }
{
    old.0 != new.0 || old.1 != new.1
}

/// Brings these devices into the cells of their lines, and notes the nodes into which more or less flows then.
pub(crate) fn enter(
    circuit: &Circuit,
    todo: &[u32],
    lines: &[Line],
    cells: &mut [(u32, u32)],
    amps: &mut [i64],
    rates: &mut [i128],
    turned: &mut Vec<u32>,
    now: u64,
    end: u64,
) -> Result<(), AllocError>
    requires net { IsNet (net_of circuit.now) }
    requires lines { AreLines lines.now now end }
    requires count_lines { length lines.now ≡ (net_of circuit.now).nodes }
    requires count_cells { length cells.old ≡ (net_of circuit.now).devices }
    requires count_amps { length amps.old ≡ (net_of circuit.now).devices }
    requires count_rates { length rates.old ≡ (net_of circuit.now).nodes }
    requires todo { All (λ k. k < (net_of circuit.now).devices) todo.now }
    requires cells { CellsBut todo.now (net_of circuit.now) lines.now cells.old now }
    requires amps { AmpsAre (net_of circuit.now) cells.old amps.old }
    requires rates { RatesAre (net_of circuit.now) amps.old rates.old }
    ensures cells { OnOk result (CellsBut [] (net_of circuit.now) lines.now cells.new now) }
    ensures amps { OnOk result (AmpsAre (net_of circuit.now) cells.new amps.new) }
    ensures rates { OnOk result (RatesAre (net_of circuit.now) amps.new rates.new) }
    ensures others { OnOk result (SameBut todo.now cells.old cells.new) }
    ensures turned { OnOk result (RateSameOrNoted rates.old rates.new turned.new.items) }
{
    for device in todo {
        let k = *device as usize;
        let (gate, drain) = cells_now(circuit, *device, lines, now, end);
        if differ(cells[k], (gate, drain)) {
            let new = current(circuit, *device, gate, drain);
            let_flow(
                circuit,
                *device,
                i128::from(new) - i128::from(amps[k]),
                rates,
                turned,
            )?;
            cells[k] = (gate, drain);
            amps[k] = new;
        }
    }
    Ok(())
}

/// Brings all devices into their first cells, and finds what flows into each node then.
pub(crate) fn first_cells(
    circuit: &Circuit,
    lines: &[Line],
    cells: &mut Vec<(u32, u32)>,
    amps: &mut Vec<i64>,
    rates: &mut [i128],
    turned: &mut Vec<u32>,
    now: u64,
    end: u64,
) -> Result<(), AllocError>
    requires net { IsNet (net_of circuit.now) }
    requires lines { AreLines lines.now now end }
    requires count_lines { length lines.now ≡ (net_of circuit.now).nodes }
    requires count_rates { length rates.old ≡ (net_of circuit.now).nodes }
    requires no_cells { cells.old.items ≡ [] }
    requires no_amps { amps.old.items ≡ [] }
    requires no_rates { (i : ℕ) → slice_index_or rates.old i (pos 0) ≡ pos 0 }
    ensures count_cells { OnOk result (length cells.new.items ≡ (net_of circuit.now).devices) }
    ensures count_amps { OnOk result (length amps.new.items ≡ (net_of circuit.now).devices) }
    ensures cells { OnOk result (CellsBut [] (net_of circuit.now) lines.now cells.new.items now) }
    ensures amps { OnOk result (AmpsAre (net_of circuit.now) cells.new.items amps.new.items) }
    ensures rates { OnOk result (RatesAre (net_of circuit.now) amps.new.items rates.new) }
{
    for device in 0..device_count(circuit) {
        let (gate, drain) = cells_now(circuit, device, lines, now, end);
        let amp = current(circuit, device, gate, drain);
        let_flow(circuit, device, i128::from(amp), rates, turned)?;
        cells.push((gate, drain))?;
        amps.push(amp)?;
    }
    Ok(())
}
