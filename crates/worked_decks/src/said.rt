//! What a deck that is read says of itself.

use deck_cards::{Deck, Part};
use deck_reader::read;
use semantics::{Element, Wave};
use std::alloc::{AllocError, Global};
use std::fmt::Write;
use std::test::Fail;

/// Texts in pieces, and what their decks say: the title, the stop, the grain and `uic`; the elements;
/// and the nodes with their capacitances and initial voltages.
const SAID: &[(&[&str], &[&str])] = &[
    (
        &[
            "rc\n",
            "V1 a 0 1\n",
            "R1 a b 1k\n",
            "C1 b 0 1p\n",
            ".IC V(b)=0\n",
            ".OPTIONS GRAIN=100m\n",
            ".TRAN 1p 1n\n",
            ".END\n",
        ],
        &[
            "rc 1000 100000 false; ",
            "v1 a 0 0:1000000; ",
            "r1 a b 1000000; ",
            "c1 b 0 1000000; ",
            "a 0 0; ",
            "b 1000000 0; ",
        ],
    ),
    // The title as it stands, and the stop, the grain and `uic`.
    (&["\n", ".TRAN 1 0\n", ".END"], &[" 0 50000 false; "]),
    (
        &[" Title \t\r\n", ".TRAN -1p 10m -1 -1 UIC\n", ".END"],
        &[" Title \t\r 10000000000 50000 true; "],
    ),
    (
        &[
            "t\n",
            ".TRAN 1p 2.5p\n",
            ".OPTIONS GRAIN=1 GRAIN=2u\n",
            ".OPTION ACCT GRAIN=4u\n",
            ".OPTIONS RELTOL=1m\n",
            ".END",
        ],
        &["t 3 4 false; "],
    ),
    // Sources: a value, a value before points, and points.
    (
        &[
            "t\n",
            "VA A GND DC -2.5\n",
            "VB 0 b 7 PWL(0 0 1n 1)\n",
            "VC c 0 PWL(5p 1 7p -1 9p 0.5u)\n",
            ".TRAN 1p 1n\n",
            ".END",
        ],
        &[
            "t 1000 50000 false; ",
            "va a 0 0:-2500000; ",
            "vb 0 b 0:0 1000:1000000; ",
            "vc c 0 5:1000000 7:-1000000 9:1; ",
            "a 0 0; ",
            "b 0 0; ",
            "c 0 0; ",
        ],
    ),
    // Nodes by first appearance, gates among them and bulks not; a size that is not given.
    (
        &[
            "t\n",
            "M1 d g GND x Sw\n",
            "M2 gnd s d 0 SW w=2u l=1m W=3u AD=x\n",
            ".TABLE SW GATE(0.5) DRAIN(-1,1) AMPS(1p 2p 3p -4p 5p 6p)\n",
            "C1 gnd s 3f\n",
            "C2 d 0 1f\n",
            "C3 g 0 2f\n",
            "C4 0 d 4f\n",
            ".TRAN 1p 1n UIC\n",
            ".END",
        ],
        &[
            "t 1000 50000 true; ",
            "m1 d g 0 x sw 100000000 100000000 Some(500000) Some(-1000000) 1; ",
            "m2 0 s d 0 sw 1000000000 3000000 Some(500000) Some(-1000000) 1; ",
            "c1 0 s 3000; ",
            "c2 d 0 1000; ",
            "c3 g 0 2000; ",
            "c4 0 d 4000; ",
            "d 5000 0; ",
            "g 2000 0; ",
            "s 3000 0; ",
        ],
    ),
    // Models: what is not given, and of equal keys the last, with other keys between them.
    (
        &[
            "t\n",
            "M1 d d 0 0 bare\n",
            "M2 d d 0 0 PCH L=1u\n",
            ".MODEL bare NMOS\n",
            ".MODEL pch PMOS(VTO=1 KP=1 TOX=x VT0=-0.45 LEVEL=2 KP=80u LEVEL=1.4)\n",
            "C1 d 0 1f\n",
            ".TRAN 1p 1n UIC\n",
            ".END",
        ],
        &[
            "t 1000 50000 true; ",
            "m1 d d 0 0 bare 100000000 100000000 N 0 20000000; ",
            "m2 d d 0 0 pch 1000000 100000000 P -450000 80000000; ",
            "c1 d 0 1000; ",
            "d 1000 0; ",
        ],
    ),
    // The last initial voltage of a node holds, on a card and behind it.
    (
        &[
            "t\n",
            "C1 b 0 1f\n",
            "C2 c 0 1f\n",
            "C3 d 0 1f\n",
            ".IC V(b)=1 V(c)=2 V(b)=-3\n",
            ".IC V(d)=5 V(C)=4 V(zz)=9 V(gnd)=9\n",
            ".TRAN 1p 1n\n",
            ".END",
        ],
        &[
            "t 1000 50000 false; ",
            "c1 b 0 1000; ",
            "c2 c 0 1000; ",
            "c3 d 0 1000; ",
            "b 1000 -3000000; ",
            "c 1000 4000000; ",
            "d 1000 5000000; ",
        ],
    ),
    // Names and nodes in lower case, and ground.
    (
        &[
            "t\n",
            "RX GND OUT 2.2K\n",
            "Rgnd out Out 0.0005\n",
            "CX OUT GND 1F\n",
            ".TRAN 1p 1n UIC\n",
            ".END",
        ],
        &[
            "t 1000 50000 true; ",
            "rx 0 out 2200000; ",
            "rgnd out out 1; ",
            "cx out 0 1000; ",
            "out 1000 0; ",
        ],
    ),
];

/// Writes the points of a voltage.
pub fn write_wave(text: &mut String, wave: &Wave) -> Result<(), Fail> {
    for (tick, volts) in wave.points() {
        write!(text, " {tick}:{volts}")?;
    }
    Ok(())
}

/// Writes a device: its name, its nodes, its part and its size.
fn write_device(text: &mut String, element: &Element) -> Result<(), Fail> {
    if let Element::Mos {
        name,
        drain,
        gate,
        source,
        bulk,
        part,
        length,
        width,
    } = element
    {
        write!(text, "{name} {drain} {gate} {source} {bulk} {part}")?;
        write!(text, " {length} {width}")?;
    }
    Ok(())
}

/// Writes an element: its name, its nodes and its values.
pub fn write_element(text: &mut String, element: &Element) -> Result<(), Fail> {
    match element {
        Element::Resistor {
            name,
            first,
            second,
            ohms,
        } => write!(text, "{name} {first} {second} {ohms}")?,
        Element::Capacitor {
            name,
            plus,
            minus,
            farads,
        } => write!(text, "{name} {plus} {minus} {farads}")?,
        Element::Source {
            name,
            plus,
            minus,
            wave,
        } => {
            write!(text, "{name} {plus} {minus}")?;
            write_wave(text, wave)?;
        }
        Element::Mos { .. } => write_device(text, element)?,
    }
    Ok(())
}

/// Writes the values of a model, or the first threshold of gate and of drain and the first current of a table.
fn write_part(text: &mut String, part: &Part) -> Result<(), Fail> {
    match part {
        Part::Level { channel, vto, kp } => write!(text, " {channel:?} {vto} {kp}")?,
        Part::Listed(table) => {
            let gate = table.gate().above(0);
            let drain = table.drain().above(0);
            let amps = table.current(0, 0);
            write!(text, " {gate:?} {drain:?} {amps}")?;
        }
    }
    Ok(())
}

/// Writes the part of a device.
fn write_part_of(text: &mut String, deck: &Deck, element: &Element) -> Result<(), Fail> {
    if let Element::Mos { part, .. } = element {
        if let Some(part) = deck.part(part) {
            write_part(text, part)?;
        }
    }
    Ok(())
}

/// Writes what a deck says.
fn write_deck(text: &mut String, deck: &Deck) -> Result<(), Fail> {
    for byte in deck.title().bytes() {
        text.push(*byte as char)?;
    }
    let stop = deck.stop();
    let grain = deck.grain();
    let uic = deck.uic();
    write!(text, " {stop} {grain} {uic}; ")?;
    for place in 0..deck.len() {
        write_element(text, deck.element(place))?;
        write_part_of(text, deck, deck.element(place))?;
        text.push_str("; ")?;
    }
    for i in 0..deck.node_count() {
        let node = deck.node(i);
        let farads = deck.capacity(i);
        let volts = deck.initial_volts(i);
        write!(text, "{node} {farads} {volts}; ")?;
    }
    Ok(())
}

/// The text of these pieces.
fn joined(alloc: Global, pieces: &[&str]) -> Result<String, AllocError> {
    let mut text = String::new(alloc);
    for piece in pieces {
        text.push_str(piece)?;
    }
    Ok(text)
}

/// What the deck of a text says, or why there is none.
fn said(alloc: Global, text: &str) -> Result<String, Fail> {
    let mut shown = String::new(alloc);
    if text.len() > 10_000 {
        return Ok(shown);
    }
    match read(alloc, text.as_bytes()) {
        Ok(deck) => write_deck(&mut shown, &deck)?,
        Err(refusal) => {
            let line = refusal.line;
            let why = refusal.why;
            write!(shown, "{line} {why}")?;
        }
    }
    Ok(shown)
}

#[test]
fn a_deck_says_what_its_cards_say(rt: HostRuntime) -> Result<(), Fail> {
    let alloc = rt.alloc();
    let mut wrong = String::new(alloc);
    for (text, want) in SAID {
        let text = joined(alloc, text)?;
        let want = joined(alloc, want)?;
        let shown = said(alloc, text.as_str())?;
        if shown.as_str() != want.as_str() {
            write!(wrong, "{text} says {shown} in place of {want}\n")?;
        }
    }
    assert_eq!(rt; wrong.as_str(), "");
    Ok(())
}
