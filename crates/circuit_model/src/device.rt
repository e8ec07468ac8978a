ghost use Rattle.std.specs.Prelude.{◌≡◌, ◌≤◌, ◌^◌, ◌+ℤ◌, ◌*◌, ℕ, pos, unsigned_abs, if◌then◌else◌, length, slice_index_or, All, IsTrue};
ghost use Rattle.std.specs.Option.{option_map};
ghost use Rattle.semantics.specs.Valid.{some_grain};
ghost use Rattle.circuit_model.specs.Ends.{is_inside, volts_at};
ghost use Rattle.circuit_model.specs.Small.{IsSmall};
ghost use Rattle.circuit_model.specs.Wiring.{device_cells, device_current, has_cells, inflow, is_wired, law_axes, law_of, leads_to, ohmic_grid, table_of};

use crate::end::cell_across;
use crate::ends::{End, Ends};
use device_tables::{Grid, Table, resistor};
use semantics::Fraction;
use std::marker::Model;

/// Half the thresholds of a resistor's grid, and its middle cell, where no current flows.
pub(crate) const HALF: u32 = 4096;

/// What sets the current of a device.
#[derive(Clone, Copy)]
pub(crate) enum Law<'a> {
    /// The resistance in milliohms.
    Ohms(i64),
    /// The current in each pair of cells.
    Gated(&'a Table),
}

/// A resistor or MOS device, with its ends by node numbers. What sets its current lies in its deck or with the device
/// that is kept.
#[derive(Drop)]
pub struct Device<'a> {
    /// Its place among the elements of the deck.
    place: u32,
    ends: Ends,
    law: Law<'a>,
}

impl<'a> Model for Device<'a> {
    ghost use Rattle.circuit_model.specs.Wiring.{DeviceValue, law_of};

    ghost Value = { DeviceValue };

    ghost view = { λ d. record { place = d.place; ends = d.ends; law = law_of d.law } };
}

impl<'a> Device<'a> {
    /// The device at this place among the elements, with these ends.
    pub(crate) fn of(place: u32, ends: Ends, law: Law<'a>) -> Device<'a>
        ensures { result ≡ record { place = place; ends = ends; law = law_of law.entry } }
    {
        Device { place, ends, law }
    }

    /// Its place among the elements of the deck.
    pub(crate) fn place(&self) -> u32
        ensures { result ≡ self.now.place }
    {
        self.place
    }

    /// Where its ends lead.
    pub(crate) fn ends(&self) -> Ends
        ensures { result ≡ self.now.ends }
    {
        self.ends
    }

    /// Its cells at these voltages, where this is a resistor's grid.
    pub(crate) fn cells(&self, grid: &Grid, volts: &[Fraction]) -> (u32, u32)
        requires wired { IsTrue (is_wired (length volts.now) self.now) }
        requires small { All IsSmall volts.now }
        ensures { (grain : ℕ) → grid.now ≡ ohmic_grid grain → result ≡ device_cells grain (volts_at volts.now) self.now }
    {
        let Ends {
            first,
            second,
            gate,
        } = self.ends;
        match &self.law {
            Law::Ohms(_) => (cell_across(grid, volts, first, second), 0),
            Law::Gated(table) => (
                cell_across(table.gate(), volts, gate, second),
                cell_across(table.drain(), volts, first, second),
            ),
        }
    }

    /// Its table; a resistor has none.
    pub(crate) fn table(&self) -> Option<&'a Table>
        ensures { option_map (λ table. table.now) result ≡ table_of self.now.law }
    {
        match &self.law {
            Law::Ohms(_) => None,
            Law::Gated(table) => Some(table),
        }
    }

    /// Its cells, from those of the gate's axis and of the other.
    pub(crate) fn axes(&self, gate_cell: u32, drain_cell: u32) -> (u32, u32)
        ensures { result ≡ law_axes self.now.law gate_cell drain_cell }
    {
        match &self.law {
            Law::Ohms(_) => (drain_cell, 0),
            Law::Gated(_) => (gate_cell, drain_cell),
        }
    }

    /// What flows through it in these cells, in picoamperes.
    pub(crate) fn current(&self, grain: u32, cells: (u32, u32)) -> i64
        requires grain { IsTrue (some_grain grain) }
        requires wired { (count : ℕ) × IsTrue (is_wired count self.now) }
        requires cells { IsTrue (has_cells self.now cells) }
        ensures value { result ≡ device_current grain self.now cells }
        ensures small { unsigned_abs result ≤ 10 ^ 12 }
    {
        match &self.law {
            Law::Ohms(ohms) => resistor(grain, *ohms, cells.0),
            Law::Gated(table) => table.current(cells.0, cells.1),
        }
    }

    /// Lets a current flow out of its first end into its second.
    pub(crate) fn let_flow(&self, amps: i64, rates: &mut [i128])
        requires wired { IsTrue (is_wired (length rates.old) self.now) }
        requires amps { unsigned_abs amps ≤ 10 ^ 12 }
        requires small { (i : ℕ) → unsigned_abs (slice_index_or rates.old i (pos 0)) ≤ 5 * 10 ^ 17 }
        ensures { (i : ℕ) → slice_index_or rates.new i (pos 0) ≡ (slice_index_or rates.old i (pos 0)) +ℤ inflow i self.now.ends amps }
    {
        add_current(rates, self.ends.first, -amps);
        add_current(rates, self.ends.second, amps);
    }
}

/// Adds a current to what flows into the node that the end leads to.
fn add_current(rates: &mut [i128], end: End, amps: i64)
    requires inside { IsTrue (is_inside (length rates.old) end) }
    requires small { (i : ℕ) → unsigned_abs (slice_index_or rates.old i (pos 0)) ≤ 10 ^ 18 }
    requires amps { unsigned_abs amps ≤ 10 ^ 12 }
    ensures { (i : ℕ) → slice_index_or rates.new i (pos 0) ≡ (slice_index_or rates.old i (pos 0)) +ℤ (if leads_to i end then amps else pos 0) }
{
    if let Some(node) = end {
        rates[node as usize] += i128::from(amps);
    }
}
