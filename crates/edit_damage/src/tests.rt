use crate::{damaged, damaged_by};
use circuit_model::{Circuit, NodeNames};
use deck_cards::{Channel, Deck, DeckParts, Edit, Element, Name, Part, Title, Wave};
use std::alloc::{AllocError, Global};
use std::test::Fail;

fn name(alloc: Global, text: &str) -> Result<Name, AllocError> {
    if text.is_ascii() {
        Name::of(alloc, text.as_bytes())
    } else {
        Name::of(alloc, b"?")
    }
}

fn capacitor(alloc: Global, own: &str, plus: &str, farads: i64) -> Result<Element, AllocError> {
    Ok(Element::Capacitor {
        name: name(alloc, own)?,
        plus: name(alloc, plus)?,
        minus: name(alloc, "0")?,
        farads,
    })
}

fn resistor(alloc: Global, ohms: i64) -> Result<Element, AllocError> {
    Ok(Element::Resistor {
        name: name(alloc, "r1")?,
        first: name(alloc, "a")?,
        second: name(alloc, "b")?,
        ohms,
    })
}

/// Two nodes a and b, which a resistor joins, with a capacitor each: the resistance, the capacitance at a, and the
/// voltage of a at the beginning.
fn deck(alloc: Global, values: (i64, i64, i64)) -> Result<Option<Deck>, AllocError> {
    let (ohms, farads, volts) = values;
    let mut elements = Vec::new(alloc);
    elements.push(resistor(alloc, ohms)?)?;
    elements.push(capacitor(alloc, "c1", "a", farads)?)?;
    elements.push(capacitor(alloc, "c2", "b", 1_000)?)?;
    let parts = DeckParts {
        title: Title::of(Vec::new(alloc)),
        stop: 1_000,
        uic: true,
        grain: 100_000,
        parts: Vec::new(alloc),
        initial: vec![in alloc; (name(alloc, "a")?, volts)]?,
        elements,
    };
    Ok(Deck::of(alloc, parts).ok())
}

/// The numbers of the nodes near the change from the one deck to the other.
fn numbers(
    alloc: Global,
    old: (i64, i64, i64),
    new: (i64, i64, i64),
) -> Result<Option<Vec<u32>>, AllocError> {
    let Some(old) = deck(alloc, old)? else {
        return Ok(None);
    };
    let Some(new) = deck(alloc, new)? else {
        return Ok(None);
    };
    let mut names = NodeNames::new();
    if new.node_count() > 10 {
        return Ok(None);
    }
    let circuit = Circuit::of(alloc, &new, &mut names)?;
    Ok(Some(damaged(alloc, &old, &new, &circuit, &names)?))
}

#[test]
fn a_resistor_its_ends_and_a_capacitor_its_node(rt: HostRuntime) -> Result<(), Fail> {
    let old = (1_000, 1_000, 0);
    assert_eq!(rt;
        numbers(rt.alloc(), old, (2_000, 1_000, 0))?.as_deref(),
        Some(&[0, 1][..])
    );
    assert_eq!(rt;
        numbers(rt.alloc(), old, (1_000, 2_000, 0))?.as_deref(),
        Some(&[0][..])
    );
    assert_eq!(rt;
        numbers(rt.alloc(), old, (1_000, 1_000, 5))?.as_deref(),
        Some(&[0, 1][..])
    );
    assert_eq!(rt; numbers(rt.alloc(), old, old)?.as_deref(), Some(&[][..]));
    Ok(())
}

/// The numbers of the nodes near an edit of a deck, as the edit and as the two decks tell them.
fn both_numbers(
    alloc: Global,
    old: &Deck,
    edit: &Edit,
) -> Result<Option<(Vec<u32>, Vec<u32>)>, AllocError> {
    let Ok(new) = old.apply(alloc, edit) else {
        return Ok(None);
    };
    let mut names = NodeNames::new();
    if old.node_count() > 10 {
        return Ok(None);
    }
    let before = Circuit::of(alloc, old, &mut names)?;
    if names.len() > 10 || new.node_count() > 10 {
        return Ok(None);
    }
    let circuit = Circuit::of(alloc, &new, &mut names)?;
    drop(before);
    let by_edit = damaged_by(alloc, edit, old, &new, &circuit, &names)?;
    let by_decks = damaged(alloc, old, &new, &circuit, &names)?;
    Ok(Some((by_edit, by_decks)))
}

/// Whether these are the numbers of the nodes near an edit, by the edit and by the two decks.
fn are_near(alloc: Global, old: &Deck, edit: &Edit, numbers: &[u32]) -> Result<bool, AllocError> {
    match both_numbers(alloc, old, edit)? {
        None => Ok(false),
        Some((by_edit, by_decks)) => {
            Ok(by_edit.as_slice() == numbers && by_decks.as_slice() == numbers)
        }
    }
}

/// A source that drives the node b.
fn source(alloc: Global) -> Result<Element, AllocError> {
    Ok(Element::Source {
        name: name(alloc, "v1")?,
        plus: name(alloc, "b")?,
        minus: name(alloc, "0")?,
        wave: Wave::dc(alloc, 7)?,
    })
}

/// The deck with the edit; where that is refused, none.
fn edited(alloc: Global, deck: &Deck, edit: &Edit) -> Option<Deck> {
    deck.apply(alloc, edit).ok()
}

#[test]
fn an_edit_of_a_value_and_of_a_voltage(rt: HostRuntime) -> Result<(), Fail> {
    let alloc = rt.alloc();
    let Some(old) = deck(alloc, (1_000, 1_000, 0))? else {
        return Ok(());
    };
    let resistor_set = Edit::SetR {
        name: name(alloc, "r1")?,
        ohms: 2_000,
    };
    assert!(rt; are_near(alloc, &old, &resistor_set, &[0, 1])?);
    let same = Edit::SetR {
        name: name(alloc, "r1")?,
        ohms: 1_000,
    };
    assert!(rt; are_near(alloc, &old, &same, &[])?);
    let capacitor_set = Edit::SetC {
        name: name(alloc, "c1")?,
        farads: 2_000,
    };
    assert!(rt; are_near(alloc, &old, &capacitor_set, &[0])?);
    let begun = Edit::SetIc {
        node: name(alloc, "b")?,
        volts: 5,
    };
    assert!(rt; are_near(alloc, &old, &begun, &[0, 1])?);
    let removed = Edit::Remove(name(alloc, "r1")?);
    assert!(rt; are_near(alloc, &old, &removed, &[0, 1])?);
    Ok(())
}

#[test]
fn a_source_that_comes_turns_and_goes(rt: HostRuntime) -> Result<(), Fail> {
    let alloc = rt.alloc();
    let Some(old) = deck(alloc, (1_000, 1_000, 0))? else {
        return Ok(());
    };
    let added = Edit::Add(source(alloc)?);
    assert!(rt; are_near(alloc, &old, &added, &[0])?);
    let Some(driven) = edited(alloc, &old, &added) else {
        return Ok(());
    };
    let turned = Edit::SetWave {
        name: name(alloc, "v1")?,
        wave: Wave::dc(alloc, 9)?,
    };
    assert!(rt; are_near(alloc, &driven, &turned, &[0])?);
    let removed = Edit::Remove(name(alloc, "v1")?);
    assert!(rt; are_near(alloc, &driven, &removed, &[0, 1])?);
    Ok(())
}

/// A device with its gate at a, its drain at b and its source at ground, which has one of two models; and a capacitor at
/// each node.
fn gate_deck(alloc: Global) -> Result<Option<Deck>, AllocError> {
    let mut parts = Vec::new(alloc);
    for model in ["slow", "fast"] {
        let part = Part::Level {
            channel: Channel::N,
            vto: 500_000,
            kp: 100_000_000,
        };
        parts.push((name(alloc, model)?, part))?;
    }
    let mut elements = Vec::new(alloc);
    elements.push(capacitor(alloc, "c1", "a", 1_000)?)?;
    elements.push(capacitor(alloc, "c2", "b", 1_000)?)?;
    elements.push(Element::Mos {
        name: name(alloc, "m1")?,
        drain: name(alloc, "b")?,
        gate: name(alloc, "a")?,
        source: name(alloc, "0")?,
        bulk: name(alloc, "0")?,
        part: name(alloc, "slow")?,
        length: 1_000_000,
        width: 1_000_000,
    })?;
    let parts = DeckParts {
        title: Title::of(Vec::new(alloc)),
        stop: 1_000,
        uic: true,
        grain: 100_000,
        parts,
        initial: Vec::new(alloc),
        elements,
    };
    Ok(Deck::of(alloc, parts).ok())
}

#[test]
fn a_device_and_its_gate(rt: HostRuntime) -> Result<(), Fail> {
    let alloc = rt.alloc();
    let Some(old) = gate_deck(alloc)? else {
        assert!(rt; false);
        return Ok(());
    };
    let other = Edit::SetModel {
        name: name(alloc, "m1")?,
        part: name(alloc, "fast")?,
    };
    assert!(rt; are_near(alloc, &old, &other, &[0, 1])?);
    let begun = Edit::SetIc {
        node: name(alloc, "a")?,
        volts: 5,
    };
    assert!(rt; are_near(alloc, &old, &begun, &[0, 1])?);
    let removed = Edit::Remove(name(alloc, "m1")?);
    assert!(rt; are_near(alloc, &old, &removed, &[0, 1])?);
    Ok(())
}
