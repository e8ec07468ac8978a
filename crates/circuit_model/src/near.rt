ghost use Rattle.std.specs.Prelude.{◌≡◌, ◌≤◌, ◌<◌, ◌++◌, ◌∷◌, ◌&&◌, [], ℕ, not, true, length, map, replicate, slice_get, IfOk, IsTrue, OnOk, Some};
ghost use Rattle.std.specs.List.{list_all};
ghost use Rattle.circuit_model.specs.Ends.{is_inside};
ghost use Rattle.circuit_model.specs.Near.{ends_at, AreNoted, HaveNoted};
ghost use Rattle.circuit_model.specs.Wiring.{are_inside, leads_to};

use crate::ends::{End, Ends};
use crate::kept_device::KeptDevice;
use std::alloc::{AllocError, Global};
use std::marker::Model;

/// The devices at one node. A contract sees their numbers.
#[derive(Drop)]
struct AtNode {
    devices: Vec<u32>,
}

impl Model for AtNode {
    ghost use Rattle.std.specs.Prelude.{List, ℕ};

    ghost Value = { List ℕ };

    ghost view = { λ n. n.devices.items };
}

impl AtNode {
    /// No devices.
    fn new(alloc: Global) -> AtNode
        ensures { result ≡ [] }
    {
        AtNode {
            devices: Vec::new(alloc),
        }
    }

    /// Their numbers.
    fn devices(&self) -> &[u32]
        ensures { result.now ≡ self.now }
    {
        self.devices.as_slice()
    }

    /// Puts one more last.
    fn push(&mut self, device: u32) -> Result<(), AllocError>
        ensures { OnOk result (self.new ≡ self.old ++ device ∷ []) }
    {
        self.devices.push(device)?;
        Ok(())
    }
}

/// An end that is not also another one, which then stands for it.
fn unless(end: End, other: End) -> End
    ensures leads { (i : ℕ) → leads_to i result ≡ leads_to i end && not (leads_to i other) }
    ensures inside { (count : ℕ) → IsTrue (is_inside count end) → IsTrue (is_inside count result) }
{
    if end == other { None } else { end }
}

/// The devices at each node, by the numbers of the nodes. A contract sees the list of their lists.
#[derive(Drop)]
pub struct Near {
    nodes: Vec<AtNode>,
}

impl Model for Near {
    ghost use Rattle.std.specs.Prelude.{List, ℕ};

    ghost Value = { List (List ℕ) };

    ghost view = { λ n. n.nodes.items };
}

impl Near {
    /// No devices at any of so many nodes.
    fn empty(alloc: Global, count: usize) -> Result<Near, AllocError>
        ensures { IfOk result (λ near. near ≡ replicate count []) }
    {
        let mut nodes = Vec::with_capacity(alloc, count)?;
        for _ in 0..count {
            nodes.push(AtNode::new(alloc))?;
        }
        Ok(Near { nodes })
    }

    /// The devices at the nodes to which their ends lead, each once, by rising numbers.
    pub(crate) fn of(
        alloc: Global,
        count: usize,
        devices: &[KeptDevice],
    ) -> Result<Near, AllocError>
        requires inside { list_all (λ d. are_inside count d.ends) devices.now ≡ true }
        requires few { length devices.now ≤ 100000 }
        ensures { IfOk result (HaveNoted (map (λ d. d.ends) devices.now) (length devices.now) count) }
    {
        let mut near = Near::empty(alloc, count)?;
        for (k, device) in devices.iter().enumerate() {
            near.note_ends(device.ends(), k as u32)?;
        }
        Ok(near)
    }

    /// The devices at a node.
    pub(crate) fn at(&self, node: usize) -> &[u32]
        requires { node < length self.now }
        ensures { slice_get self.now node ≡ Some result.now }
    {
        self.nodes[node].devices()
    }

    /// Puts a device last at the node to which an end leads.
    fn note(&mut self, end: End, device: u32) -> Result<(), AllocError>
        requires { IsTrue (is_inside (length self.old) end) }
        ensures { OnOk result (AreNoted (λ i. leads_to i end) device self.old self.new) }
    {
        if let Some(node) = end {
            self.nodes[node as usize].push(device)?;
        }
        Ok(())
    }

    /// Puts a device last at each node to which one of its ends leads.
    fn note_ends(&mut self, ends: Ends, device: u32) -> Result<(), AllocError>
        requires { IsTrue (are_inside (length self.old) ends) }
        ensures { OnOk result (AreNoted (λ i. ends_at i ends) device self.old self.new) }
    {
        let Ends {
            first,
            second,
            gate,
        } = ends;
        self.note(first, device)?;
        self.note(unless(second, first), device)?;
        self.note(unless(unless(gate, first), second), device)
    }
}
