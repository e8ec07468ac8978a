//! Decks that are made from parts: what they hold, or the first cause why there is none.

use crate::elements::{capacitor, mos, name, resistor, source};
use Card::{
    Capacitor, Grain, Initial, Level, Mos, Resistor, Source, Stop, Table as TableCard, Uic,
};
use deck_cards::{Deck, DeckParts, Part};
use device_tables::{Grid, Table};
use semantics::{Channel, Element, Title};
use std::alloc::{AllocError, Global};
use std::fmt::Write;
use std::test::Fail;

/// What a card says: its name and nodes, and its values; a device has its drain, gate, source and part.
enum Card {
    Uic,
    Stop(u64),
    Grain(u32),
    Initial(&'static str, i64),
    /// A p-channel model: its threshold voltage and its gain.
    Level(&'static str, i64, i64),
    /// A table of one current in all cells.
    Table(&'static str, i64),
    Resistor(&'static str, &'static str, &'static str, i64),
    Capacitor(&'static str, &'static str, &'static str, i64),
    Source(&'static str, &'static str, &'static str, u64, i64),
    Mos(&'static str, &'static str, &'static str, &'static str, &'static str, i64, i64),
}

/// Cards, and the cause why they make no deck: each cause once, and each two neighbours once, of
/// which the first is told.
const CAUSES: &[(&[Card], &str)] = &[
    (
        &[
            Source("v1", "a", "0", 0, 5),
            Resistor("r1", "a", "b", 1),
            Capacitor("c1", "b", "0", 1),
            Initial("b", 0),
        ],
        "none",
    ),
    (
        &[Resistor("r1", "0", "gnd", 1), Resistor("r1", "0", "gnd", 1)],
        "DuplicateName(r1)",
    ),
    (
        &[Mos("m1", "0", "0", "0", "sw", 1, 1), TableCard("sn", 0)],
        "NoSuchModel(sw)",
    ),
    (&[Capacitor("c1", "a", "b", 1)], "NotGrounded(c1)"),
    (&[Capacitor("c1", "0", "gnd", 1)], "NotGrounded(c1)"),
    (
        &[Source("v1", "a", "0", 0, 5), Source("v2", "0", "a", 0, 5)],
        "TwoDrivers(a)",
    ),
    (
        &[
            Source("v1", "a", "0", 0, 5),
            Resistor("r1", "a", "b", 1),
            Resistor("r2", "b", "c", 1),
            Uic,
        ],
        "Uncapped(b)",
    ),
    (
        &[
            Capacitor("c1", "b", "0", 5),
            Capacitor("c2", "0", "b", -5),
            Uic,
        ],
        "Uncapped(b)",
    ),
    (
        &[
            Capacitor("c1", "b", "0", 1),
            Capacitor("c2", "c", "0", 1),
            Initial("c", 0),
        ],
        "NoInitial(b)",
    ),
    (&[Stop(10_000_000_000)], "none"),
    (&[Stop(10_000_000_001)], "Limit(Seconds, .tran)"),
    (&[Grain(1_000_000)], "none"),
    (&[Grain(3)], "Limit(Grain, .options)"),
    (&[Initial("q", 1_000_000_001)], "Limit(Volts, q)"),
    (&[Initial("q", 1_000_000_001), Initial("q", 0)], "none"),
    (
        &[
            Initial("p", 1_000_000_001),
            Initial("q", 1_000_000_001),
            Initial("p", 1_000_000_002),
        ],
        "Limit(Volts, p)",
    ),
    (
        &[Source("v1", "a", "0", 10_000_000_001, 1_000_000_001)],
        "Limit(Seconds, v1)",
    ),
    (
        &[Source("v1", "a", "0", 0, -1_000_000_001)],
        "Limit(Volts, v1)",
    ),
    (&[Resistor("r1", "0", "0", 0)], "Limit(Ohms, r1)"),
    (&[Capacitor("c1", "a", "0", -1), Uic], "Limit(Farads, c1)"),
    (
        &[Mos("m1", "0", "0", "0", "sw", 1, 0), TableCard("sw", 0)],
        "Limit(Metres, m1)",
    ),
    (&[Level("pch", -100_000_000, 100_000_000_000)], "none"),
    (&[Level("pch", -100_000_001, 0)], "Limit(Volts, pch)"),
    (&[Level("pch", 0, -1)], "Limit(Gain, pch)"),
    (&[Level("pch", 0, 100_000_000_001)], "Limit(Gain, pch)"),
    (&[Level("pch", 100_000_001, -1)], "Limit(Volts, pch)"),
    (
        &[Initial("q", 1_000_000_001), Level("pch", 0, -1)],
        "Limit(Gain, pch)",
    ),
    (
        &[
            Capacitor("c1", "b", "0", 600_000_000_000),
            Capacitor("c2", "b", "0", 600_000_000_000),
            Uic,
        ],
        "Limit(NodeFarads, b)",
    ),
    (
        &[
            Resistor("r1", "0", "0", 1),
            Capacitor("c1", "a", "b", 1),
            Capacitor("c1", "a", "b", 1),
        ],
        "NotGrounded(c1)",
    ),
    (
        &[
            TableCard("sw", 0),
            Mos("m1", "0", "0", "0", "sw", 1, 1),
            Mos("m1", "0", "0", "0", "sn", 1, 1),
        ],
        "DuplicateName(m1)",
    ),
    (
        &[
            Mos("m1", "0", "0", "0", "sn", 1, 1),
            Capacitor("c1", "a", "b", 1),
        ],
        "NoSuchModel(sn)",
    ),
    (
        &[Source("v1", "a", "0", 0, 5), Source("v2", "a", "b", 0, 5)],
        "NotGrounded(v2)",
    ),
    (
        &[
            Resistor("r1", "b", "c", 1),
            Source("v1", "a", "0", 0, 5),
            Source("v2", "a", "0", 0, 5),
        ],
        "TwoDrivers(a)",
    ),
    (
        &[Capacitor("c1", "b", "0", 1), Resistor("r1", "b", "c", 1)],
        "Uncapped(c)",
    ),
    (
        &[Capacitor("c1", "b", "0", 1), Stop(10_000_000_001)],
        "NoInitial(b)",
    ),
    (&[Stop(10_000_000_001), Grain(3)], "Limit(Seconds, .tran)"),
    (
        &[Grain(3), Initial("q", 1_000_000_001)],
        "Limit(Grain, .options)",
    ),
    (
        &[Resistor("r1", "0", "0", 0), Initial("q", 1_000_000_001)],
        "Limit(Volts, q)",
    ),
    (
        &[
            Resistor("r1", "0", "0", 0),
            Capacitor("c1", "b", "0", 600_000_000_000),
            Capacitor("c2", "b", "0", 600_000_000_000),
            Uic,
        ],
        "Limit(Ohms, r1)",
    ),
];

/// Cards and a number of resistors from `a` to `b` behind them, and why they make no deck.
const COUNTS: &[(&[Card], u32, &str)] = &[
    (
        &[
            Source("v1", "a", "0", 0, 5),
            Capacitor("c1", "b", "0", 1),
            Uic,
        ],
        1_000,
        "none",
    ),
    (
        &[
            Source("v1", "a", "0", 0, 5),
            Capacitor("c1", "b", "0", 1),
            Uic,
        ],
        1_001,
        "Limit(Terminals, b)",
    ),
    (
        &[
            Source("v1", "a", "0", 0, 5),
            Capacitor("c1", "b", "0", 600_000_000_000),
            Capacitor("c2", "b", "0", 600_000_000_000),
            Uic,
        ],
        1_001,
        "Limit(NodeFarads, b)",
    ),
    (
        &[
            Source("v1", "a", "0", 0, 5),
            Capacitor("c1", "b", "0", 600_000_000_000),
            Capacitor("c2", "b", "0", 600_000_000_000),
            Uic,
        ],
        99_998,
        "Limit(Elements, x99997)",
    ),
    (
        &[
            Source("v1", "a", "0", 0, 5),
            Capacitor("c1", "b", "0", 1),
            Stop(10_000_000_001),
            Uic,
        ],
        99_999,
        "Limit(Seconds, .tran)",
    ),
];

/// A device with a node at its drain alone, a node at its gate, and a source on its second node.
const SWITCH: &[Card] = &[
    Source("v1", "gnd", "a", 0, 5),
    Mos("m1", "d", "g", "gnd", "sw", 1, 2),
    Capacitor("c1", "d", "0", 3),
    Capacitor("c2", "gnd", "g", 4),
    Capacitor("c3", "d", "0", 30),
    TableCard("sw", 9),
    Initial("d", -6),
    Initial("g", 7),
];

/// Initial voltages, models and tables of which a name stands twice.
const TWICE: &[Card] = &[
    Capacitor("c1", "b", "0", 1),
    Initial("b", 1),
    Initial("q", 2),
    Initial("b", 3),
    TableCard("sw", 1),
    TableCard("sn", 2),
    TableCard("sw", 3),
    Level("sn", 0, 8),
];

/// Cards, a name, and what a deck of them has under it: a node, an element, a voltage, and the current of a table or the
/// gain of a model.
const NAMES: &[(&[Card], &str, &str)] = &[
    (SWITCH, "G", "G Some(2) None Some(7) None;"),
    (SWITCH, "gnd", "gnd None None None None;"),
    (SWITCH, "c2", "c2 None Some(3) None None;"),
    (SWITCH, "sw", "sw None None None Some(9);"),
    (TWICE, "b", "b Some(0) None Some(3) None;"),
    (TWICE, "q", "q None None Some(2) None;"),
    (TWICE, "sw", "sw None None None Some(3);"),
    (TWICE, "sn", "sn None None None Some(8);"),
];

/// Cards, and what a deck of them says of itself and of its nodes.
const SAID: &[(&[Card], &str)] = &[(SWITCH, "0 7 2 false 5;a 0 0 1 true;d 33 -6;g 4 7;")];

/// A table of one current in all cells.
fn table(alloc: Global, amps: i64) -> Result<Table, Fail> {
    let gate = Grid::of_list(Vec::new(alloc))?;
    let drain = Grid::of_list(Vec::new(alloc))?;
    Ok(Table::explicit(gate, drain, vec![in alloc; amps]?)?)
}

/// The element of a card, where it is one.
fn element(alloc: Global, card: &Card) -> Result<Option<Element>, Fail> {
    let element = match card {
        Resistor(own, first, second, ohms) => resistor(alloc, own, first, second, *ohms)?,
        Capacitor(own, plus, minus, farads) => capacitor(alloc, own, plus, minus, *farads)?,
        Source(own, plus, minus, tick, volts) => source(
            alloc,
            own,
            plus,
            minus,
            &[(*tick, *volts)],
        )?,
        Mos(own, drain, gate, source, part, length, width) => {
            let ends = [*drain, *gate, *source, "0"];
            mos(alloc, own, ends, part, (*length, *width))?
        }
        _ => return Ok(None),
    };
    Ok(Some(element))
}

/// Takes a card into the parts.
fn take(alloc: Global, parts: &mut DeckParts, card: &Card) -> Result<(), Fail> {
    match card {
        Uic => parts.uic = true,
        Stop(tick) => parts.stop = *tick,
        Grain(volts) => parts.grain = *volts,
        Initial(node, volts) => parts.initial.push((name(alloc, node)?, *volts))?,
        Level(part, vto, kp) => {
            let level = Part::Level {
                channel: Channel::P,
                vto: *vto,
                kp: *kp,
            };
            parts.parts.push((name(alloc, part)?, level))?;
        }
        TableCard(part, amps) => {
            let listed = Part::Listed(table(alloc, *amps)?);
            parts.parts.push((name(alloc, part)?, listed))?;
        }
        card => {
            if let Some(element) = element(alloc, card)? {
                parts.elements.push(element)?;
            }
        }
    }
    Ok(())
}

/// The parts that these cards say.
fn parts(alloc: Global, cards: &[Card]) -> Result<DeckParts, Fail> {
    let mut parts = DeckParts {
        title: Title::of(Vec::new(alloc)),
        stop: 7,
        uic: false,
        grain: 2,
        parts: Vec::new(alloc),
        initial: Vec::new(alloc),
        elements: Vec::new(alloc),
    };
    for card in cards {
        take(alloc, &mut parts, card)?;
    }
    Ok(parts)
}

/// What a deck of these parts is refused for.
fn told(alloc: Global, parts: DeckParts) -> Result<String, AllocError> {
    match Deck::of(alloc, parts) {
        Ok(_) => format!(in alloc; "none"),
        Err(refusal) => format!(in alloc; "{refusal:?}"),
    }
}

#[test]
fn refusals(rt: HostRuntime) -> Result<(), Fail> {
    for (k, (cards, cause)) in CAUSES.iter().enumerate() {
        let deck = parts(rt.alloc(), cards)?;
        assert_eq!(rt; told(rt.alloc(), deck)?.as_str(), *cause, "case {k}");
    }
    Ok(())
}

/// The parts of these cards, and resistors from `a` to `b` behind them.
fn with_resistors(alloc: Global, cards: &[Card], count: u32) -> Result<DeckParts, Fail> {
    let mut parts = parts(alloc, cards)?;
    for i in 0..count {
        let own = format!(in alloc; "x{i}")?;
        parts
            .elements
            .push(resistor(alloc, own.as_str(), "a", "b", 1)?)?;
    }
    Ok(parts)
}

#[test]
fn numbers_of_things(rt: HostRuntime) -> Result<(), Fail> {
    for (cards, count, cause) in COUNTS {
        let deck = with_resistors(rt.alloc(), cards, *count)?;
        assert_eq!(rt; told(rt.alloc(), deck)?.as_str(), *cause, "{count}");
    }
    Ok(())
}

/// The gain of a model, or the current of a table in its first cells.
fn gain_or_current(part: &Part) -> i64 {
    match part {
        Part::Level { kp, .. } => *kp,
        Part::Listed(table) => table.current(0, 0),
    }
}

/// What a deck has under each of these names: a node, an element, an initial voltage and a part.
fn found(alloc: Global, deck: &Deck, names: &[&str]) -> Result<String, Fail> {
    let mut text = String::new(alloc);
    for word in names {
        let name = name(alloc, word)?;
        let node = deck.node_place(&name);
        let element = deck.place(&name);
        let volts = deck.initial(&name);
        let amps = deck.part(&name).map(gain_or_current);
        write!(text, "{word} {node:?} {element:?} {volts:?} {amps:?};")?;
    }
    Ok(text)
}

#[test]
fn finds_names(rt: HostRuntime) -> Result<(), Fail> {
    for (cards, name, want) in NAMES {
        let deck = Deck::of(rt.alloc(), parts(rt.alloc(), cards)?)?;
        assert_eq!(rt; found(rt.alloc(), &deck, &[*name])?.as_str(), *want);
    }
    Ok(())
}

/// What stands at the nodes of a deck, in their order, behind what it says of itself.
fn said(alloc: Global, deck: &Deck) -> Result<String, Fail> {
    let mut text = String::new(alloc);
    let title = deck.title().bytes().len();
    let stop = deck.stop();
    let grain = deck.grain();
    let uic = deck.uic();
    let count = deck.len();
    write!(text, "{title} {stop} {grain} {uic} {count};")?;
    for i in 0..deck.node_count() {
        let node = deck.node(i);
        let capacity = deck.capacity(i);
        let volts = deck.initial_volts(i);
        write!(text, "{node} {capacity} {volts}")?;
        if let Some((wave, turned)) = deck.drive(i) {
            let points = wave.len();
            write!(text, " {points} {turned}")?;
        }
        text.push(';')?;
    }
    Ok(text)
}

#[test]
fn says_what_the_parts_say(rt: HostRuntime) -> Result<(), Fail> {
    for (cards, want) in SAID {
        let deck = Deck::of(rt.alloc(), parts(rt.alloc(), cards)?)?;
        assert_eq!(rt; said(rt.alloc(), &deck)?.as_str(), *want);
    }
    Ok(())
}
