//! Plain runs of decks that are made from parts: their waves and events.

ghost use Rattle.std.specs.Prelude.{◌≤◌, length, IfOk};

mod cases;

use crate::elements::{capacitor, mos, name, resistor, source};
use cases::{Card, Case, Entry};
use circuit_model::{Event, Line, Waves, tick_run};
use deck_cards::{Deck, DeckParts, Part};
use device_tables::{Grid, Table};
use semantics::{Element, Title};
use std::alloc::{AllocError, Global};
use std::test::Fail;

fn element(alloc: Global, card: &Card) -> Result<Element, Fail> {
    match card {
        Card::Resistor(label, first, second, ohms) => {
            Ok(resistor(alloc, label, first, second, *ohms)?)
        }
        Card::Capacitor(label, plus, minus, farads) => {
            Ok(capacitor(alloc, label, plus, minus, *farads)?)
        }
        Card::Source(label, plus, minus, points) => source(alloc, label, plus, minus, points),
        Card::Mos(label, drain, gate, source, bulk, part) => {
            Ok(mos(alloc, label, [*drain, *gate, *source, *bulk], part, (1, 1))?)
        }
    }
}

/// These numbers, of which there are at most 1,000.
fn few(alloc: Global, numbers: &[i64]) -> Result<Vec<i64>, AllocError>
    ensures { IfOk result (λ v. length v.items ≤ 1000) }
{
    let few = if numbers.len() <= 1_000 { numbers } else { &[] };
    few.to_vec(alloc)
}

/// The table of these thresholds and currents.
fn table(alloc: Global, gate: &[i64], drain: &[i64], amps: &[i64]) -> Result<Table, Fail> {
    let gate = Grid::of_list(few(alloc, gate)?)?;
    let drain = Grid::of_list(few(alloc, drain)?)?;
    Ok(Table::explicit(gate, drain, few(alloc, amps)?)?)
}

/// The deck of a case.
fn deck(alloc: Global, case: &Case) -> Result<Deck, Fail> {
    let mut parts = Vec::new(alloc);
    for (label, gate, drain, amps) in case.tables {
        parts.push((
            name(alloc, label)?,
            Part::Listed(table(alloc, gate, drain, amps)?),
        ))?;
    }
    let mut initial = Vec::new(alloc);
    for (label, volts) in case.initial {
        initial.push((name(alloc, label)?, *volts))?;
    }
    let mut elements = Vec::new(alloc);
    for card in case.cards {
        elements.push(element(alloc, card)?)?;
    }
    Ok(Deck::of(
        alloc,
        DeckParts {
            title: Title::of(Vec::new(alloc)),
            stop: case.stop,
            uic: case.uic,
            grain: case.grain,
            parts,
            initial,
            elements,
        },
    )?)
}

fn is_entry(line: &Line, entry: &Entry) -> bool {
    (line.start, line.num, line.rate, line.den) == *entry
}

fn is_wave(lines: &[Line], entries: &[Entry]) -> bool {
    lines.len() == entries.len()
        && lines
            .iter()
            .zip(entries)
            .all(|(line, entry)| is_entry(line, entry))
}

fn are_events(events: &[Event], want: &[(u64, u32, (u32, u32), (u32, u32))]) -> bool {
    events.len() == want.len()
        && events.iter().zip(want).all(|(event, want)| (
            event.tick,
            event.place,
            event.old,
            event.new,
        ) == *want)
}

/// Whether the run of the case's deck gives its waves.
fn gives_waves(waves: &Waves, case: &Case) -> bool {
    waves.len() == case.waves.len()
        && case.waves.iter().enumerate().all(|(node, wave)| node < waves.len()
            && is_wave(waves.wave(node), wave))
}

/// Whether the run of the case's deck gives its waves and its events.
fn gives(alloc: Global, case: &Case) -> Result<(bool, bool), Fail> {
    let deck = deck(alloc, case)?;
    let ran = tick_run(alloc, &deck)?;
    Ok((
        gives_waves(&ran.waves, case),
        are_events(ran.events.all(), case.events),
    ))
}

#[test]
fn runs(rt: HostRuntime) -> Result<(), Fail> {
    for (k, case) in cases::ALL.iter().enumerate() {
        assert_eq!(rt; gives(rt.alloc(), case)?, (true, true), "case {k}");
    }
    Ok(())
}
