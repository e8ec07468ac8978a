ghost use Rattle.std.specs.Prelude.{◌≡◌, ◌<◌, ◌&&◌, ◌++◌, ◌∷◌, [], if◌then◌else◌, length, replicate, slice_index_or, false, IfOk, IsTrue, OnOk};
ghost use Rattle.std.specs.Str.{bytes_eq};
ghost use Rattle.semantics.specs.Neighbours.{is_end, share};
ghost use Rattle.circuit_model.specs.Ends.{is_inside};
ghost use Rattle.circuit_model.specs.Names.{AreNames};
ghost use Rattle.circuit_model.specs.Numbers.{devices, device_of, kind_at, name_at};
ghost use Rattle.circuit_model.specs.Wiring.{leads_to};
ghost use Rattle.edit_damage.specs.Marks.{free_marked, is_around, is_free_kind, is_around_marked, name_of_number, AreMarked};

use circuit_model::{Circuit, NodeKind, NodeNames};
use semantics::{Element, Name};
use std::alloc::{AllocError, Global};
use std::marker::Model;

/// Numbers of nodes, of which some are marked. A contract sees, number by number, whether it is.
#[derive(Drop)]
pub(crate) struct Marks {
    marked: Vec<bool>,
}

impl Model for Marks {
    ghost use Rattle.std.specs.Prelude.{Bool, List};

    ghost Value = { List Bool };

    ghost view = { λ m. m.marked.items };
}

impl Marks {
    /// So many numbers, of which none is marked.
    pub(crate) fn none(alloc: Global, count: usize) -> Result<Marks, AllocError>
        ensures { IfOk result (λ marks. marks ≡ replicate count false) }
    {
        Ok(Marks {
            marked: vec![in alloc; false; count]?,
        })
    }

    /// Whether a number is marked.
    pub(crate) fn has(&self, node: u32) -> bool
        requires { node < length self.now }
        ensures { result ≡ slice_index_or self.now node false }
    {
        self.marked[node as usize]
    }

    /// Marks the node to which an end leads.
    pub(crate) fn mark(&mut self, end: Option<u32>)
        requires { IsTrue (is_inside (length self.old) end) }
        ensures { AreMarked (λ i. leads_to i end) self.old self.new }
    {
        if let Some(node) = end {
            self.marked[node as usize] = true;
        }
    }

    /// Marks the node of a name.
    fn mark_name(&mut self, names: &NodeNames, name: &Name)
        requires { length self.old ≡ length names.now }
        ensures { AreMarked (λ i. bytes_eq (name_of_number names.now i) name.now) self.old self.new }
    {
        have_names(names);
        self.mark(names.find(name));
    }

    /// Marks the nodes at the ends of an element.
    pub(crate) fn mark_ends(&mut self, names: &NodeNames, element: &Element)
        requires { length self.old ≡ length names.now }
        ensures { AreMarked (λ i. is_end (name_of_number names.now i) element.now) self.old self.new }
    {
        match element {
            Element::Resistor { first, second, .. } => {
                self.mark_name(names, first);
                self.mark_name(names, second);
            }
            Element::Capacitor { plus, minus, .. } => {
                self.mark_name(names, plus);
                self.mark_name(names, minus);
            }
            Element::Source { plus, minus, .. } => {
                self.mark_name(names, plus);
                self.mark_name(names, minus);
            }
            Element::Mos {
                drain,
                gate,
                source,
                ..
            } => {
                self.mark_name(names, drain);
                self.mark_name(names, gate);
                self.mark_name(names, source);
            }
        }
    }

    /// Marks the nodes at the ends of a device, its gate included.
    fn mark_device(&mut self, circuit: &Circuit, device: u32)
        requires size { length self.old ≡ length circuit.now.names }
        requires device { device < length (devices circuit.now.deck) }
        ensures { AreMarked (λ i. is_end (name_at circuit.now i) (device_of circuit.now.deck device)) self.old self.new }
    {
        circuit.node_count();
        let ends = circuit.ends(device);
        self.mark(ends.first);
        self.mark(ends.gate);
        self.mark(ends.second);
    }

    /// Marks the nodes that share a device with a node.
    fn mark_beside(&mut self, circuit: &Circuit, node: u32)
        requires size { length self.old ≡ length circuit.now.names }
        requires node { node < length circuit.now.names }
        ensures { AreMarked (λ i. share circuit.now.deck (name_at circuit.now node) (name_at circuit.now i)) self.old self.new }
    {
        for device in circuit.near(node) {
            self.mark_device(circuit, *device);
        }
    }

    /// Marks a node and the nodes that share a device with it.
    fn mark_around(&mut self, circuit: &Circuit, node: u32)
        requires size { length self.old ≡ length circuit.now.names }
        requires node { node < length circuit.now.names }
        ensures { AreMarked (is_around circuit.now.deck circuit.now.names node) self.old self.new }
    {
        self.mark(Some(node));
        self.mark_beside(circuit, node);
    }

    /// Marks the nodes that others have marked, and those that share a device with one of these.
    pub(crate) fn mark_around_all(&mut self, circuit: &Circuit, others: &Marks)
        requires size { length self.old ≡ length circuit.now.names }
        requires others { length others.now ≡ length circuit.now.names }
        ensures { AreMarked (is_around_marked circuit.now.deck circuit.now.names others.now (length circuit.now.names)) self.old self.new }
    {
        for node in 0..circuit.node_count() {
            self.mark_around_marked(circuit, others, node);
        }
    }

    /// Marks a node and the nodes that share a device with it, where others have marked it.
    fn mark_around_marked(&mut self, circuit: &Circuit, others: &Marks, node: u32)
        requires size { length self.old ≡ length circuit.now.names }
        requires others { length others.now ≡ length circuit.now.names }
        requires node { node < length circuit.now.names }
        ensures { AreMarked (λ i. slice_index_or others.now node false && is_around circuit.now.deck circuit.now.names node i) self.old self.new }
    {
        if others.has(node) {
            self.mark_around(circuit, node);
        }
    }

    /// The marked numbers of free nodes, by rising numbers.
    pub(crate) fn free(&self, alloc: Global, circuit: &Circuit) -> Result<Vec<u32>, AllocError>
        requires { length self.now ≡ length circuit.now.names }
        ensures { IfOk result (λ found. found.items ≡ free_marked circuit.now self.now (length circuit.now.names)) }
    {
        let mut found = Vec::new(alloc);
        for node in 0..circuit.node_count() {
            push_if(&mut found, node, self.is_found(circuit, node))?;
        }
        Ok(found)
    }

    /// Whether a number is marked and is that of a free node.
    fn is_found(&self, circuit: &Circuit, node: u32) -> bool
        requires { node < length self.now }
        ensures { result ≡ slice_index_or self.now node false && is_free_kind (kind_at circuit.now node) }
    {
        self.has(node) && is_free(circuit, node)
    }
}

/// Whether a number is that of a free node.
pub(crate) fn is_free(circuit: &Circuit, node: u32) -> bool
    ensures { result ≡ is_free_kind (kind_at circuit.now node) }
{
    match circuit.kind(node) {
        NodeKind::Absent => false,
        NodeKind::Driven => false,
        NodeKind::Free => true,
    }
}

/// Puts a number last where it passes.
fn push_if(found: &mut Vec<u32>, node: u32, passes: bool) -> Result<(), AllocError>
    ensures { OnOk result (found.new.items ≡ found.old.items ++ (if passes then node ∷ [] else [])) }
{
    if passes {
        found.push(node)?;
    }
    Ok(())
}

/// That no name stands twice.
fn have_names(names: &NodeNames)
    ensures { AreNames names.now }
{
    names.len();
}
