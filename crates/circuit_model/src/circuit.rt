ghost use Rattle.std.specs.Prelude.{◌≡◌, ◌<◌, ◌≤◌, ◌+◌, ◌^◌, ◌*ℤ◌, ℕ, pos, unsigned_abs, length, map, slice_get, All, IfOk, IfSome, IsTrue, OnErr, OnOk};
ghost use Rattle.std.specs.Option.{option_map};
ghost use Rattle.semantics.specs.Deck.{capacity, driver, initial_of, nodes};
ghost use Rattle.semantics.specs.Device.{current_in};
ghost use Rattle.semantics.specs.Valid.{is_source, is_valid};
ghost use Rattle.node_ramps.specs.Lines.{InBounds};
ghost use Rattle.circuit_model.specs.Circuit.{IsNumbered};
ghost use Rattle.circuit_model.specs.Drive.{drive_of, IsNextTurn};
ghost use Rattle.circuit_model.specs.Ends.{ends_in, number};
ghost use Rattle.circuit_model.specs.Names.{with_nodes, AreNames, HasNodes};
ghost use Rattle.circuit_model.specs.Numbers.{axes, device_of, devices, drain_grid_of, gate_grid_of, kind_at, name_at, near_of, place_at, place_of, HasCells};
ghost use Rattle.circuit_model.specs.Wiring.{is_wired};

use crate::device::{Device, HALF};
use crate::ends::Ends;
use crate::kept_device::{KeptDevice, kept_devices};
use crate::near::Near;
use crate::node_kind::NodeKind;
use crate::node_names::NodeNames;
use crate::source::{course, next_turn, signed_line};
use crate::volts::charged;
use deck_cards::Deck;
use device_tables::Grid;
use semantics::{Line, Wave};
use std::alloc::{AllocError, Global};
use std::marker::Model;

/// The place of each name among the nodes of a deck.
fn places_of(
    alloc: Global,
    deck: &Deck,
    names: &NodeNames,
) -> Result<Vec<Option<usize>>, AllocError>
    ensures { IfOk result (λ places. places.items ≡ map (number (nodes deck.now)) names.now) }
{
    let mut places = Vec::with_capacity(alloc, names.len())?;
    for node in 0..names.len() {
        places.push(deck.node_place(names.name(node)))?;
    }
    Ok(places)
}

/// A deck with its nodes and devices by numbers, for runs that go from node to node. It has its share of the deck. Nodes have the numbers of their
/// names, and the devices are the deck's resistors and MOS devices, numbered from 0 in the order of its elements. A
/// contract sees the deck and the names, and each call answers what the definitions say of the name of a number.
#[derive(Drop)]
pub struct Circuit {
    deck: Deck,
    names: NodeNames,
    /// The grid of a resistor's voltage.
    grid: Grid,
    /// What is kept of each device beside the deck.
    devices: Vec<KeptDevice>,
    /// The place of each name among the nodes of the deck.
    places: Vec<Option<usize>>,
    /// The devices at each name.
    near: Near,
}

impl Model for Circuit {
    ghost use Rattle.circuit_model.specs.Numbers.{CircuitValue};
    ghost use Rattle.circuit_model.specs.Circuit.{IsCircuit};

    ghost Value = { CircuitValue };

    ghost view = { λ c. record { deck = c.deck; names = c.names } };

    ghost invariant = { λ c. IsCircuit c.deck c.names c.grid c.devices.items c.places.items c.near };
}

impl Circuit {
    /// The circuit of a deck. The names grow by those of its nodes that are new, in their order. It fails only for want
    /// of memory, and the names are then as they were.
    pub fn of(alloc: Global, deck: &Deck, names: &mut NodeNames) -> Result<Circuit, AllocError>
        requires room { length names.old + length (nodes deck.now) < 2 ^ 32 }
        ensures circuit { IfOk result (λ c. c ≡ record { deck = deck.now; names = names.new }) }
        ensures names { OnOk result (names.new ≡ with_nodes names.old deck.now) }
        ensures unchanged { OnErr result (names.new ≡ names.old) }
    {
        let grown = names.with_nodes(alloc, deck)?;
        let circuit = Circuit::named(alloc, deck.share()?, grown.copy()?)?;
        *names = grown;
        Ok(circuit)
    }

    /// The circuit of a deck under these names, which have each of its nodes.
    fn named(alloc: Global, deck: Deck, names: NodeNames) -> Result<Circuit, AllocError>
        requires { HasNodes deck names }
        ensures { IfOk result (λ c. c ≡ record { deck = deck; names = names }) }
    {
        let grid = Grid::uniform(deck.grain(), HALF);
        let devices = kept_devices(alloc, &deck, &names)?;
        let places = places_of(alloc, &deck, &names)?;
        let near = Near::of(alloc, names.len(), &devices)?;
        Ok(Circuit {
            deck,
            names,
            grid,
            devices,
            places,
            near,
        })
    }

    /// The stop tick of the deck, in picoseconds.
    pub fn stop(&self) -> u64
        ensures stop { result ≡ self.now.deck.stop }
        ensures valid { IsTrue (is_valid self.now.deck) }
    {
        self.deck.stop()
    }

    /// The number of names that it was made with: every number of a node is below it.
    pub fn node_count(&self) -> u32
        ensures count { result ≡ length self.now.names }
        ensures names { AreNames self.now.names }
        ensures nodes { HasNodes self.now.deck self.now.names }
    {
        self.names.len() as u32
    }

    /// The number of its devices, at most 100,000.
    pub fn device_count(&self) -> u32
        ensures count { result ≡ length (devices self.now.deck) }
        ensures few { result ≤ 100000 }
    {
        self.devices.len() as u32
    }

    /// What the node of a number is in the deck. A number that no name has is absent too.
    pub fn kind(&self, node: u32) -> NodeKind
        ensures { result ≡ kind_at self.now node }
    {
        match self.find_place(node) {
            None => NodeKind::Absent,
            Some(place) if self.deck.drive(place).is_some() => NodeKind::Driven,
            Some(_) => NodeKind::Free,
        }
    }

    /// The place of the name of a number among the nodes of the deck. `None` where it is none of them.
    fn find_place(&self, node: u32) -> Option<usize>
        ensures { result ≡ place_at self.now node }
    {
        *self.places.get(node as usize)?
    }

    /// The place of a node of the deck among its nodes.
    fn place(&self, node: u32) -> usize
        requires { kind_at self.now node ≡ NodeKind.Absent → ⊥ }
        ensures { slice_get (nodes self.now.deck) result ≡ Some (name_at self.now node) }
    {
        self.find_place(node).unwrap()
    }

    /// The source that drives a node, and whether the node is its second.
    fn source(&self, node: u32) -> (&Wave, bool)
        requires { kind_at self.now node ≡ NodeKind.Driven }
        ensures driver { driver self.now.deck (name_at self.now node) ≡ Some (result.0.now, result.1) }
        ensures source { IsTrue (is_source result.0.now) }
    {
        self.deck.drive(self.place(node)).unwrap()
    }

    /// The capacitance of a free node, in attofarads.
    pub fn capacity(&self, node: u32) -> u64
        requires free { kind_at self.now node ≡ NodeKind.Free }
        ensures value { result ≡ capacity self.now.deck (name_at self.now node) }
        ensures some { 1 ≤ result }
        ensures most { result ≤ 10 ^ 12 }
    {
        self.deck.capacity(self.place(node))
    }

    /// The charge of a free node at tick 0: its capacitance at its initial voltage, in attofarads times microvolts.
    pub fn start(&self, node: u32) -> i128
        requires free { kind_at self.now node ≡ NodeKind.Free }
        ensures value { result ≡ (pos (capacity self.now.deck (name_at self.now node))) *ℤ initial_of self.now.deck (name_at self.now node) }
        ensures small { unsigned_abs result ≤ 10 ^ 21 }
    {
        let place = self.place(node);
        charged(self.deck.capacity(place), self.deck.initial_volts(place)).num
    }

    /// The line of a driven node from a tick on: the voltage that its source gives it there, and the slope.
    pub fn drive(&self, node: u32, tick: u64) -> Line
        requires driven { kind_at self.now node ≡ NodeKind.Driven }
        requires tick { tick ≤ self.now.deck.stop }
        ensures line { result ≡ drive_of self.now.deck (name_at self.now node) tick }
        ensures bounds { (later : ℕ) → tick ≤ later → later ≤ 10 ^ 10 → InBounds result later }
    {
        let (wave, second) = self.source(node);
        signed_line(course(wave, tick), second)
    }

    /// The next tick, up to the stop, at which the line of a driven node turns: at which its slope or its denominator is
    /// not what it is at this tick. Up to there the line of this tick is in force. `None` exactly where it is to the stop.
    pub fn next_point(&self, node: u32, tick: u64) -> Option<u64>
        requires driven { kind_at self.now node ≡ NodeKind.Driven }
        requires tick { tick ≤ self.now.deck.stop }
        ensures { IsNextTurn (drive_of self.now.deck (name_at self.now node)) self.now.deck.stop tick result }
    {
        let (wave, _) = self.source(node);
        next_turn(wave, tick, self.deck.stop())
    }

    /// The device of a number.
    fn device(&self, device: u32) -> Device
        requires { device < length (devices self.now.deck) }
        ensures device { IsNumbered self.now.deck self.now.names device result }
        ensures place { result.place ≡ place_of self.now.deck device }
        ensures wired { IsTrue (is_wired (length self.now.names) result) }
        ensures valid { IsTrue (is_valid self.now.deck) }
    {
        self.devices[device as usize].read(&self.deck)
    }

    /// Where the ends of a device lead.
    pub fn ends(&self, device: u32) -> Ends
        requires { device < length (devices self.now.deck) }
        ensures { result ≡ ends_in self.now.names (device_of self.now.deck device) }
    {
        self.device(device).ends()
    }

    /// The grid of gate minus source. `None` exactly for a resistor.
    pub fn gate_grid(&self, device: u32) -> Option<&Grid>
        requires { device < length (devices self.now.deck) }
        ensures { option_map (λ grid. grid.now) result ≡ gate_grid_of self.now.deck (device_of self.now.deck device) }
    {
        match self.device(device).table() {
            None => None,
            Some(table) => Some(table.gate()),
        }
    }

    /// The grid of drain minus source, or of a resistor's first end minus its second.
    pub fn drain_grid(&self, device: u32) -> &Grid
        requires { device < length (devices self.now.deck) }
        ensures { result.now ≡ drain_grid_of self.now.deck (device_of self.now.deck device) }
    {
        match self.device(device).table() {
            None => &self.grid,
            Some(table) => table.drain(),
        }
    }

    /// The place of a device among the elements of the deck, from 0 on.
    pub fn device_place(&self, device: u32) -> u32
        requires { device < length (devices self.now.deck) }
        ensures { result ≡ place_of self.now.deck device }
    {
        self.device(device).place()
    }

    /// The cells of a device as its events have them, from those of its two axes: a resistor has that of the drain, and 0.
    pub fn axes(&self, device: u32, gate_cell: u32, drain_cell: u32) -> (u32, u32)
        requires { device < length (devices self.now.deck) }
        ensures { result ≡ axes (device_of self.now.deck device) gate_cell drain_cell }
    {
        self.device(device).axes(gate_cell, drain_cell)
    }

    /// What flows through a device in these cells, in picoamperes, out of its first end into its second, at most 1 A in
    /// size. The cell of a resistor is handed in as that of the drain, with 0 as that of the gate.
    pub fn device_current(&self, device: u32, gate_cell: u32, drain_cell: u32) -> i64
        requires device { device < length (devices self.now.deck) }
        requires cells { HasCells self.now.deck (device_of self.now.deck device) gate_cell drain_cell }
        ensures value { result ≡ current_in self.now.deck (device_of self.now.deck device) (axes (device_of self.now.deck device) gate_cell drain_cell) }
        ensures small { unsigned_abs result ≤ 10 ^ 12 }
    {
        let device = self.device(device);
        let cells = device.axes(gate_cell, drain_cell);
        device.current(self.deck.grain(), cells)
    }

    /// The devices at a node, gates included, each once and by rising numbers.
    pub fn near(&self, node: u32) -> &[u32]
        requires { node < length self.now.names }
        ensures devices { result.now ≡ near_of self.now.deck (name_at self.now node) }
        ensures inside { All (λ k. k < length (devices self.now.deck)) result.now }
    {
        self.near.at(node as usize)
    }
}
