//! Elements and voltages from the words of a line, from a place on.

use crate::said::{write_element, write_wave};
use deck_lexer::CardLine;
use deck_reader::{read_element, read_wave};
use std::alloc::Global;
use std::fmt::Write;
use std::test::Fail;

/// The words of a line, a place among them, and the element that they say from there on.
const ELEMENTS: &[(&str, usize, &str)] = &[
    ("add R1 a GND 1k", 1, "r1 a 0 1000000"),
    ("C1 0 B 1p", 0, "c1 0 b 1000000"),
    ("add V1 a 0 DC 1", 1, "v1 a 0 0:1000000"),
    ("x y V1 a gnd 5 PWL(0 0 1p 1)", 2, "v1 a 0 0:0 1:1000000"),
    (
        "add M1 d g 0 gnd Sw w=2u",
        1,
        "m1 d g 0 0 sw 100000000 2000000",
    ),
    // Limits, ground and what is not defined are not looked at.
    ("R1 a b 0", 0, "r1 a b 0"),
    ("C1 a b -1m", 0, "c1 a b -1000000000000000"),
    ("V1 a b 2k", 0, "v1 a b 0:2000000000"),
    ("V1 a 0 pwl 1 0", 0, "v1 a 0 1000000000000:0"),
    (
        "M1 d g 0 0 sw l=0 w=-1",
        0,
        "m1 d g 0 0 sw 0 -1000000000000",
    ),
    // A time below 0.
    ("V1 a 0 pwl -1p 5 0 1", 0, "v1 a 0 10000000001:0"),
    // Each refusal, and each two neighbours.
    ("add", 1, "wrong words"),
    ("add", 7, "wrong words"),
    ("add L1 a 0 1u", 1, "unsupported l1"),
    ("add .ic v b 0", 1, "unsupported .ic"),
    ("add R1 a b 1k", 0, "unsupported add"),
    ("V1 a 0 x", 0, "unsupported x"),
    ("V1 a 0 1 x pwl", 0, "unsupported x"),
    ("M1 d g 0 0 sw foo", 0, "unsupported foo"),
    ("R1 a b", 0, "wrong words"),
    ("R1 a b x y", 0, "wrong words"),
    ("C1 a b 1p 1", 0, "wrong words"),
    ("V1 a 0", 0, "wrong words"),
    ("V1 a 0 pwl x", 0, "wrong words"),
    ("M1 d g 0 0", 0, "wrong words"),
    ("R1 a b x", 0, "bad number x"),
    ("C1 a b 1", 0, "bad number 1"),
    ("V1 a 0 dc x", 0, "bad number x"),
    ("V1 a 0 pwl 1p 0 0 x", 0, "bad number x"),
    ("M1 d g 0 0 sw l=x", 0, "bad number x"),
    ("V1 a 0 pwl 1p 0 1p 0", 0, "times not rising"),
    ("V1 a 0 pwl -1p 0 -2p 0", 0, "times not rising"),
];

/// The words of a line, a place among them, and the voltage that they say from there on.
const WAVES: &[(&str, usize, &str)] = &[
    ("wave V1 1", 2, " 0:1000000"),
    ("wave V1 DC -1", 2, " 0:-1000000"),
    ("wave V1 PWL(0 0 50p 1)", 2, " 0:0 50:1000000"),
    ("wave V1 dc 7 pwl 3p 1", 2, " 3:1000000"),
    ("wave V1 2k", 2, " 0:2000000000"),
    ("wave V1 pwl 11m 0", 2, " 11000000000:0"),
    ("wave V1 pwl -1p 5 0 1", 2, " 10000000001:0"),
    ("wave V1 -0.4p", 2, " 0:0"),
    ("wave V1", 2, "wrong words"),
    ("wave V1 x", 2, "unsupported x"),
    ("wave V1 1", 1, "unsupported v1"),
    ("wave V1 x pwl", 2, "unsupported x"),
    ("wave V1 dc", 2, "wrong words"),
    ("wave V1 pwl x", 2, "wrong words"),
    ("wave V1 dc x", 2, "bad number x"),
    ("wave V1 pwl 1p 0 0 x", 2, "bad number x"),
    ("wave V1 pwl 0 0 0.4p 0", 2, "times not rising"),
];

/// The element that the words of a line say from a place on, or why there is none.
fn element_from(alloc: Global, words: &str, from: usize) -> Result<String, Fail> {
    let mut shown = String::new(alloc);
    if !words.is_ascii() || words.len() > 1_000 {
        return Ok(shown);
    }
    let line = CardLine::of(alloc, 1, words.as_bytes())?;
    match read_element(alloc, &line, from) {
        Ok(element) => write_element(&mut shown, &element)?,
        Err(why) => write!(shown, "{why}")?,
    }
    Ok(shown)
}

/// The voltage that the words of a line say from a place on, or why there is none.
fn wave_from(alloc: Global, words: &str, from: usize) -> Result<String, Fail> {
    let mut shown = String::new(alloc);
    if !words.is_ascii() || words.len() > 1_000 {
        return Ok(shown);
    }
    let line = CardLine::of(alloc, 1, words.as_bytes())?;
    match read_wave(alloc, &line, from) {
        Ok(wave) => write_wave(&mut shown, &wave)?,
        Err(why) => write!(shown, "{why}")?,
    }
    Ok(shown)
}

#[test]
fn elements_of_words(rt: HostRuntime) -> Result<(), Fail> {
    let alloc = rt.alloc();
    let mut wrong = String::new(alloc);
    for (words, from, want) in ELEMENTS {
        let shown = element_from(alloc, words, *from)?;
        if shown.as_str() != *want {
            write!(wrong, "{words} gives {shown} in place of {want}; ")?;
        }
    }
    assert_eq!(rt; wrong.as_str(), "");
    Ok(())
}

#[test]
fn voltages_of_words(rt: HostRuntime) -> Result<(), Fail> {
    let alloc = rt.alloc();
    let mut wrong = String::new(alloc);
    for (words, from, want) in WAVES {
        let shown = wave_from(alloc, words, *from)?;
        if shown.as_str() != *want {
            write!(wrong, "{words} gives {shown} in place of {want}; ")?;
        }
    }
    assert_eq!(rt; wrong.as_str(), "");
    Ok(())
}
