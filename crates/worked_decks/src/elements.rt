//! Elements by their values, for decks that are made without a text.

use semantics::{Element, Name, Wave};
use std::alloc::{AllocError, Global};
use std::test::Fail;

/// A name; `?` stands for a text that is none.
pub fn name(alloc: Global, text: &str) -> Result<Name, AllocError> {
    if text.is_ascii() {
        Name::of(alloc, text.as_bytes())
    } else {
        Name::of(alloc, b"?")
    }
}

pub fn resistor(
    alloc: Global,
    own: &str,
    first: &str,
    second: &str,
    ohms: i64,
) -> Result<Element, AllocError> {
    Ok(Element::Resistor {
        name: name(alloc, own)?,
        first: name(alloc, first)?,
        second: name(alloc, second)?,
        ohms,
    })
}

pub fn capacitor(
    alloc: Global,
    own: &str,
    plus: &str,
    minus: &str,
    farads: i64,
) -> Result<Element, AllocError> {
    Ok(Element::Capacitor {
        name: name(alloc, own)?,
        plus: name(alloc, plus)?,
        minus: name(alloc, minus)?,
        farads,
    })
}

pub fn source(
    alloc: Global,
    own: &str,
    plus: &str,
    minus: &str,
    points: &[(u64, i64)],
) -> Result<Element, Fail> {
    Ok(Element::Source {
        name: name(alloc, own)?,
        plus: name(alloc, plus)?,
        minus: name(alloc, minus)?,
        wave: Wave::pwl(points.to_vec(alloc)?)?,
    })
}

/// A device with these ends, drain, gate, source and bulk, and of this length and width.
pub fn mos(
    alloc: Global,
    own: &str,
    ends: [&str; 4],
    part: &str,
    size: (i64, i64),
) -> Result<Element, AllocError> {
    let [drain, gate, source, bulk] = ends;
    let (length, width) = size;
    Ok(Element::Mos {
        name: name(alloc, own)?,
        drain: name(alloc, drain)?,
        gate: name(alloc, gate)?,
        source: name(alloc, source)?,
        bulk: name(alloc, bulk)?,
        part: name(alloc, part)?,
        length,
        width,
    })
}
