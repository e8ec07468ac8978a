ghost use Rattle.std.specs.Prelude.{◌≡◌, ◌<◌, ◌+◌, ℕ, pos, length, map, slice_index_or, IsTrue, IfOk, OnOk, Some};
ghost use Rattle.semantics.specs.Deck.{nodes};
ghost use Rattle.semantics.specs.Event.{events_to};
ghost use Rattle.semantics.specs.Run.{run};
ghost use Rattle.semantics.specs.Valid.{is_valid};
ghost use Rattle.semantics.specs.Wave.{rate};
ghost use Rattle.circuit_model.specs.Kept.{device_in};
ghost use Rattle.circuit_model.specs.Network.{cells_at};
ghost use Rattle.circuit_model.specs.Wiring.{devices_of, inflows, ohmic_grid};

use crate::device::{Device, HALF};
use crate::drive::driven_rate;
use crate::events::Events;
use crate::kept_device::{KeptDevice, read_devices};
use deck_cards::Deck;
use device_tables::Grid;
use semantics::Fraction;
use std::alloc::{AllocError, Global};
use std::marker::Model;

/// A deck with its devices, by the places of its nodes. A contract sees the deck.
#[derive(Drop)]
pub struct Network<'a> {
    deck: &'a Deck,
    /// The grid of a resistor's voltage at the deck's grain.
    grid: Grid,
    devices: Vec<Device<'a>>,
}

impl<'a> Model for Network<'a> {
    ghost use Rattle.semantics.specs.Deck.{DeckValue};
    ghost use Rattle.circuit_model.specs.Network.{IsNetwork};

    ghost Value = { DeckValue };

    ghost view = { λ n. n.deck.now };

    ghost invariant = { λ n. IsNetwork n.deck.now n.grid n.devices.items };
}

impl<'a> Network<'a> {
    /// A deck, and what is kept of its devices by the places of its nodes.
    pub(crate) fn of(
        alloc: Global,
        deck: &'a Deck,
        kept: &'a [KeptDevice],
    ) -> Result<Network<'a>, AllocError>
        requires { map (device_in deck.now) kept.now ≡ map Some (devices_of deck.now (nodes deck.now)) }
        ensures { IfOk result (λ network. network ≡ deck.now) }
    {
        let grid = Grid::uniform(deck.grain(), HALF);
        let devices = read_devices(alloc, deck, kept)?;
        Ok(Network {
            deck,
            grid,
            devices,
        })
    }

    /// The deck.
    pub(crate) fn deck(&self) -> &Deck
        ensures deck { result.now ≡ self.now }
        ensures valid { IsTrue (is_valid self.now) }
    {
        self.deck
    }

    /// The grid of a resistor's voltage.
    fn grid(&self) -> &Grid
        ensures { result.now ≡ ohmic_grid self.now.grain }
    {
        &self.grid
    }

    /// The devices, by their places among the elements.
    fn devices(&self) -> &[Device<'a>]
        ensures devices { result.now ≡ devices_of self.now (nodes self.now) }
        ensures valid { IsTrue (is_valid self.now) }
    {
        self.devices.as_slice()
    }

    /// The cells of each device at tick 0.
    pub(crate) fn first_cells(
        &self,
        alloc: Global,
        volts: &[Fraction],
    ) -> Result<Vec<(u32, u32)>, AllocError>
        requires { volts.now ≡ map (run self.now 0) (nodes self.now) }
        ensures { IfOk result (λ cells. cells.items ≡ cells_at self.now 0) }
    {
        let grid = self.grid();
        let devices = self.devices();
        let mut cells = Vec::with_capacity(alloc, devices.len())?;
        for device in devices {
            cells.push(device.cells(grid, volts))?;
        }
        Ok(cells)
    }

    /// Finds the cells of each device at a tick, and notes each that is in other cells than at the tick before.
    pub(crate) fn enter_cells(
        &self,
        tick: u64,
        volts: &[Fraction],
        cells: &mut [(u32, u32)],
        events: &mut Events,
    ) -> Result<(), AllocError>
        requires tick { tick < self.now.stop }
        requires volts { volts.now ≡ map (run self.now (tick + 1)) (nodes self.now) }
        requires cells { cells.old ≡ cells_at self.now tick }
        requires events { events.old ≡ events_to self.now tick }
        ensures cells { OnOk result (cells.new ≡ cells_at self.now (tick + 1)) }
        ensures events { OnOk result (events.new ≡ events_to self.now (tick + 1)) }
    {
        let grid = self.grid();
        let devices = self.devices();
        for (k, device) in devices.iter().enumerate() {
            let old = cells[k];
            let new = device.cells(grid, volts);
            events.note(tick + 1, device.place(), old, new)?;
            cells[k] = new;
        }
        Ok(())
    }

    /// What the numerator of each node's voltage gains from a tick to the next, where the devices are in these cells.
    pub(crate) fn find_rates(&self, tick: u64, cells: &[(u32, u32)], rates: &mut [i128])
        requires cells { cells.now ≡ cells_at self.now tick }
        requires count { length rates.old ≡ length (nodes self.now) }
        ensures { rates.new ≡ map (rate self.now tick) (nodes self.now) }
    {
        self.find_currents(cells, rates);
        let deck = self.deck();
        for node in 0..rates.len() {
            if let Some(rate) = driven_rate(deck, node, tick) {
                rates[node] = rate;
            }
        }
    }

    /// What flows into each node, in picoamperes.
    fn find_currents(&self, cells: &[(u32, u32)], rates: &mut [i128])
        requires cells { (tick : ℕ) × (cells.now ≡ cells_at self.now tick) }
        requires count { length rates.old ≡ length (nodes self.now) }
        ensures { (i : ℕ) → i < length (nodes self.now) → slice_index_or rates.new i (pos 0) ≡ inflows self.now.grain i (devices_of self.now (nodes self.now)) cells.now }
    {
        rates.fill(0);
        let grain = self.deck().grain();
        let devices = self.devices();
        for (k, device) in devices.iter().enumerate() {
            let amps = device.current(grain, cells[k]);
            device.let_flow(amps, rates);
        }
    }
}
