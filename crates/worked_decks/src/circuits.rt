//! Circuits of decks that are read from texts: what is at their nodes, and the faults of their records.

ghost use Rattle.std.specs.Prelude.{◌≡◌, ℕ, true, IfOk, OnOk};
ghost use Rattle.circuit_model.specs.declared.node_kind.NodeKind.TheVariants as kind;
ghost use Rattle.circuit_model.specs.Numbers.{kind_at};
ghost use Rattle.circuit_model.specs.Records.{IsRecordOf};
ghost use Rattle.histories.specs.Record.{keeps};

use circuit_model::{Circuit, NodeKind, NodeNames};
use deck_cards::Deck;
use deck_reader::read;
use fault_sweep::faults;
use histories::Histories;
use std::alloc::{AllocError, Global};
use std::fmt::Write;
use std::test::Fail;

/// A resistor charges a capacitor. The nodes are a and b.
const CHARGED: &str =
    "rc\nV1 a 0 1\nR1 a b 1k\nC1 b 0 1p\n.IC V(b)=0\n.OPTIONS GRAIN=100m\n.TRAN 1p 1n\n.END\n";

/// The same with another node in place of the first. The nodes are c and a.
const DISCHARGED: &str = "rc\nV1 c 0 0\nR1 c a 1k\nC1 a 0 1p\n.IC V(a)=1\n.TRAN 1p 1n\n.END\n";

/// Devices of which two ends or all three are at one node. The nodes are a and b.
const LOOPED: &str =
    "loops\nV1 a 0 1\nR1 a b 1k\nR2 b b 1k\nM1 b b b 0 sw\nM2 b a a 0 sw\nC1 b 0 1p\n\
    .MODEL sw NMOS\n.IC V(b)=0\n.TRAN 1p 1n\n.END\n";

/// The deck of a text, where it is one.
fn deck(alloc: Global, text: &str) -> Option<Deck> {
    if text.len() <= 100_000 {
        read(alloc, text.as_bytes()).ok()
    } else {
        None
    }
}

/// The circuit of a text, where it is a deck and there are few names.
fn circuit(alloc: Global, text: &str, names: &mut NodeNames) -> Option<Circuit> {
    let deck = deck(alloc, text)?;
    if deck.node_count() <= 1_000 && names.len() <= 1_000 {
        Circuit::of(alloc, &deck, names).ok()
    } else {
        None
    }
}

/// The circuit of a text, under names of its own.
fn lone_circuit(alloc: Global, text: &str) -> Option<Circuit> {
    let mut names = NodeNames::new();
    circuit(alloc, text, &mut names)
}

/// The devices at a node of a text's circuit.
fn near(alloc: Global, text: &str, node: u32) -> Option<Vec<u32>> {
    let circuit = lone_circuit(alloc, text)?;
    if node < circuit.node_count() {
        circuit.near(node).to_vec(alloc).ok()
    } else {
        None
    }
}

/// Whether these are the devices at a node of a text's circuit.
fn are_near(alloc: Global, text: &str, node: u32, want: &[u32]) -> bool {
    match near(alloc, text, node) {
        Some(devices) => devices.as_slice() == want,
        None => false,
    }
}

/// What the first nodes are in the circuit of a text, where another text had names before it.
fn kinds_behind(alloc: Global, before: &str, text: &str) -> Option<[NodeKind; 4]> {
    let mut names = NodeNames::new();
    circuit(alloc, before, &mut names)?;
    let circuit = circuit(alloc, text, &mut names)?;
    Some([
        circuit.kind(0),
        circuit.kind(1),
        circuit.kind(2),
        circuit.kind(3),
    ])
}

/// A text with so many resistors from 1 V to a node, and as many from there to -1 V. The nodes are h, l and m.
fn balanced(alloc: Global, count: u32) -> Result<String, Fail> {
    let mut text = String::new(alloc);
    text.push_str("balanced\nVh h 0 1\nVl l 0 -1\nC1 m 0 1p\n.IC V(m)=0\n.TRAN 1p 1n\n")?;
    for k in 0..count {
        write!(text, "Rh{k} h m 1k\nRl{k} m l 1k\n")?;
    }
    text.push_str(".END\n")?;
    Ok(text)
}

/// Keeps a node at its first pair, where it is free.
fn keep(circuit: &Circuit, node: u32, past: &mut Histories) -> Result<(), AllocError>
    ensures stop { OnOk result (past.new.stop ≡ past.old.stop) }
    ensures here { OnOk result (kind_at circuit.now node ≡ kind.Free → keeps past.new node ≡ true) }
    ensures others { OnOk result ((i : ℕ) → keeps past.old i ≡ true → keeps past.new i ≡ true) }
{
    match circuit.kind(node) {
        NodeKind::Free => past.start(node, circuit.start(node), circuit.capacity(node)),
        NodeKind::Driven | NodeKind::Absent => Ok(()),
    }
}

/// The record in which each free node keeps its first pair.
fn kept(alloc: Global, circuit: &Circuit) -> Result<Histories, AllocError>
    ensures { IfOk result (λ past. IsRecordOf circuit.now past.stop (keeps past)) }
{
    let mut past = Histories::new(alloc, circuit.stop());
    for node in 0..circuit.node_count() {
        keep(circuit, node, &mut past)?;
    }
    Ok(past)
}

/// The least fault of a node over all ticks, and how many there are.
fn count(
    alloc: Global,
    circuit: &Circuit,
    past: &Histories,
    node: u32,
) -> Option<(Option<u64>, usize)>
    requires { IsRecordOf circuit.now past.now.stop (keeps past.now) }
{
    let stop = circuit.stop();
    if circuit.kind(node) != NodeKind::Free {
        return None;
    }
    let found = faults(alloc, circuit, past, node, 0, stop).ok()?;
    Some((
        found.least(),
        (0..stop).filter(|tick| found.has(*tick)).count(),
    ))
}

/// The faults of a node in the record in which each free node of a text keeps its first pair.
fn kept_faults(alloc: Global, text: &str, node: u32) -> Option<(Option<u64>, usize)> {
    let circuit = lone_circuit(alloc, text)?;
    let past = kept(alloc, &circuit).ok()?;
    count(alloc, &circuit, &past, node)
}

/// The record in which each free node keeps its first pair, but this node has the numerator 1 at tick 0.
fn jumped(alloc: Global, circuit: &Circuit, node: u32) -> Result<Histories, AllocError>
    ensures { IfOk result (λ past. IsRecordOf circuit.now past.stop (keeps past)) }
{
    let mut past = kept(alloc, circuit)?;
    past.start(node, 1, 1_000_000)?;
    Ok(past)
}

/// The faults of a node that jumps at tick 0 in that record.
fn jump_faults(alloc: Global, text: &str, node: u32) -> Option<(Option<u64>, usize)> {
    let circuit = lone_circuit(alloc, text)?;
    let past = jumped(alloc, &circuit, node).ok()?;
    count(alloc, &circuit, &past, node)
}

#[test]
fn a_node_that_is_kept_is_at_fault_to_the_stop(rt: HostRuntime) -> Result<(), Fail> {
    assert_eq!(rt; kept_faults(rt.alloc(), CHARGED, 1), Some((Some(0), 1_000)));
    Ok(())
}

#[test]
fn many_currents_that_cancel_are_no_fault(rt: HostRuntime) -> Result<(), Fail> {
    let text = balanced(rt.alloc(), 150)?;
    assert_eq!(rt; kept_faults(rt.alloc(), text.as_str(), 2), Some((None, 0)));
    Ok(())
}

#[test]
fn a_jump_at_tick_0_is_a_fault_there(rt: HostRuntime) -> Result<(), Fail> {
    let text = balanced(rt.alloc(), 150)?;
    assert_eq!(rt;
        jump_faults(rt.alloc(), text.as_str(), 2),
        Some((Some(0), 1))
    );
    Ok(())
}

#[test]
fn a_device_is_near_a_node_once(rt: HostRuntime) -> Result<(), Fail> {
    assert!(rt; are_near(rt.alloc(), LOOPED, 0, &[0, 3]));
    assert!(rt; are_near(rt.alloc(), LOOPED, 1, &[0, 1, 2, 3]));
    Ok(())
}

#[test]
fn a_thousand_devices_are_near_a_node(rt: HostRuntime) -> Result<(), Fail> {
    let text = balanced(rt.alloc(), 500)?;
    let devices = near(rt.alloc(), text.as_str(), 2);
    assert_eq!(rt; devices.map(|devices| devices.len()), Some(1_000));
    Ok(())
}

#[test]
fn a_name_that_is_no_node_any_more_is_absent(rt: HostRuntime) -> Result<(), Fail> {
    let kinds = [
        NodeKind::Free,
        NodeKind::Absent,
        NodeKind::Driven,
        NodeKind::Absent,
    ];
    assert_eq!(rt; kinds_behind(rt.alloc(), CHARGED, DISCHARGED), Some(kinds));
    Ok(())
}
