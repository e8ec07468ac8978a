ghost use Rattle.std.specs.Prelude.{◌≡◌, ◌<◌, ◌||◌, ℕ, [], length, OnOk};
ghost use Rattle.std.specs.List.Sorted.{IsStrictlyIncreasing};
ghost use Rattle.std.specs.Str.{bytes_eq};
ghost use Rattle.semantics.specs.Neighbours.{is_end, share};
ghost use Rattle.circuit_model.specs.Numbers.{device_of, devices, name_at};
ghost use Rattle.circuit_model.specs.Wiring.{leads_to};
ghost use Rattle.edit_damage.specs.ByEdit.{is_among, AreFound, AreNumbersFound};
ghost use Rattle.edit_damage.specs.ByEdit.{is_around_node, is_beside, is_beside_source, is_near_element};

use crate::marks::is_free;
use circuit_model::{Circuit, NodeNames};
use semantics::{Element, Name};
use std::alloc::{AllocError, Global};
use std::marker::Model;

/// Numbers of free nodes as they are found, of which one may stand several times. A contract sees them in that order.
#[derive(Drop)]
pub(crate) struct Found {
    numbers: Vec<u32>,
}

impl Model for Found {
    ghost use Rattle.std.specs.Prelude.{List, ℕ};

    ghost Value = { List ℕ };

    ghost view = { λ f. f.numbers.items };
}

impl Found {
    /// No numbers.
    pub(crate) fn none(alloc: Global) -> Found
        ensures { result ≡ [] }
    {
        Found {
            numbers: Vec::new(alloc),
        }
    }

    /// The numbers by rising numbers, each once.
    pub(crate) fn sorted(self) -> Vec<u32>
        ensures rising { IsStrictlyIncreasing result.items }
        ensures same { (i : ℕ) → is_among result.items i ≡ is_among self i }
    {
        let mut numbers = self.numbers;
        numbers.sort_unstable();
        numbers.dedup();
        numbers
    }

    /// Adds the node to which an end leads, where it is free.
    fn add(&mut self, circuit: &Circuit, end: Option<u32>) -> Result<(), AllocError>
        ensures { OnOk result (AreNumbersFound circuit.now (λ i. leads_to i end) self.old self.new) }
    {
        if let Some(node) = end {
            if is_free(circuit, node) {
                self.numbers.push(node)?;
            }
        }
        Ok(())
    }

    /// Adds the node of a name, where it is free.
    fn add_name(
        &mut self,
        circuit: &Circuit,
        names: &NodeNames,
        name: &Name,
    ) -> Result<(), AllocError>
        requires { circuit.now.names ≡ names.now }
        ensures { OnOk result (AreFound circuit.now (λ n. bytes_eq n name.now) self.old self.new) }
    {
        circuit.node_count();
        self.add(circuit, names.find(name))
    }

    /// Adds the free nodes at the ends of an element.
    fn add_ends(
        &mut self,
        circuit: &Circuit,
        names: &NodeNames,
        element: &Element,
    ) -> Result<(), AllocError>
        requires { circuit.now.names ≡ names.now }
        ensures { OnOk result (AreFound circuit.now (λ n. is_end n element.now) self.old self.new) }
    {
        match element {
            Element::Resistor { first, second, .. } => self.add_two(circuit, names, first, second),
            Element::Capacitor { plus, minus, .. } => self.add_two(circuit, names, plus, minus),
            Element::Source { plus, minus, .. } => self.add_two(circuit, names, plus, minus),
            Element::Mos {
                drain,
                gate,
                source,
                ..
            } => {
                self.add_name(circuit, names, drain)?;
                self.add_two(circuit, names, gate, source)
            }
        }
    }

    /// Adds the nodes of two names, where they are free.
    fn add_two(
        &mut self,
        circuit: &Circuit,
        names: &NodeNames,
        first: &Name,
        second: &Name,
    ) -> Result<(), AllocError>
        requires { circuit.now.names ≡ names.now }
        ensures { OnOk result
            (AreFound circuit.now (λ n. bytes_eq n first.now || bytes_eq n second.now) self.old self.new) }
    {
        self.add_name(circuit, names, first)?;
        self.add_name(circuit, names, second)
    }

    /// Adds the free nodes at the ends of a device, its gate included.
    fn add_device(&mut self, circuit: &Circuit, device: u32) -> Result<(), AllocError>
        requires { device < length (devices circuit.now.deck) }
        ensures { OnOk result
            (AreFound circuit.now (λ n. is_end n (device_of circuit.now.deck device)) self.old self.new) }
    {
        circuit.node_count();
        let ends = circuit.ends(device);
        self.add(circuit, ends.first)?;
        self.add(circuit, ends.gate)?;
        self.add(circuit, ends.second)
    }

    /// Adds the free nodes that share a device with a node.
    fn add_neighbours(&mut self, circuit: &Circuit, node: u32) -> Result<(), AllocError>
        requires { node < length circuit.now.names }
        ensures { OnOk result
            (AreFound circuit.now (share circuit.now.deck (name_at circuit.now node)) self.old self.new) }
    {
        for device in circuit.near(node) {
            self.add_device(circuit, *device)?;
        }
        Ok(())
    }

    /// Adds the free nodes that share a device with the node of a name. Ground is no such node.
    fn add_beside(
        &mut self,
        circuit: &Circuit,
        names: &NodeNames,
        name: &Name,
    ) -> Result<(), AllocError>
        requires { circuit.now.names ≡ names.now }
        ensures { OnOk result (AreFound circuit.now (is_beside circuit.now.deck name.now) self.old self.new) }
    {
        circuit.node_count();
        match names.find(name) {
            None => Ok(()),
            Some(node) => self.add_neighbours(circuit, node),
        }
    }

    /// Adds the node of a name and those that share a device with it, where they are free.
    pub(crate) fn add_around(
        &mut self,
        circuit: &Circuit,
        names: &NodeNames,
        name: &Name,
    ) -> Result<(), AllocError>
        requires { circuit.now.names ≡ names.now }
        ensures { OnOk result
            (AreFound circuit.now (is_around_node circuit.now.deck name.now) self.old self.new) }
    {
        self.add_name(circuit, names, name)?;
        self.add_beside(circuit, names, name)
    }

    /// Adds the free nodes that share a device with an end of a source, where the element is one.
    fn add_beside_source(
        &mut self,
        circuit: &Circuit,
        names: &NodeNames,
        element: &Element,
    ) -> Result<(), AllocError>
        requires { circuit.now.names ≡ names.now }
        ensures { OnOk result
            (AreFound circuit.now (is_beside_source circuit.now.deck element.now) self.old self.new) }
    {
        match element {
            Element::Source { plus, minus, .. } => {
                self.add_beside(circuit, names, plus)?;
                self.add_beside(circuit, names, minus)
            }
            Element::Resistor { .. } => Ok(()),
            Element::Capacitor { .. } => Ok(()),
            Element::Mos { .. } => Ok(()),
        }
    }

    /// Adds the free nodes at the ends of an element, and those beside them where it is a source.
    pub(crate) fn add_near(
        &mut self,
        circuit: &Circuit,
        names: &NodeNames,
        element: &Element,
    ) -> Result<(), AllocError>
        requires { circuit.now.names ≡ names.now }
        ensures { OnOk result
            (AreFound circuit.now (is_near_element circuit.now.deck element.now) self.old self.new) }
    {
        self.add_ends(circuit, names, element)?;
        self.add_beside_source(circuit, names, element)
    }
}
