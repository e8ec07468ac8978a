//! The lines of events.

ghost use Rattle.std.specs.Prelude.{◌≡◌, ◌≤◌, ◌++◌, length, string_bytes, IfOk, OnOk, IsTrue, All};
ghost use Rattle.std.specs.List.{flat_map};
ghost use Rattle.std.specs.List.Sorted.{IsNonDecreasingBy};
ghost use Rattle.semantics.specs.Event.{events};
ghost use Rattle.semantics.specs.Neighbours.{is_device};
ghost use Rattle.wave_text.specs.Body.{IsEventOf};
ghost use Rattle.wave_text.specs.Happened.{event_line, event_text, events_text, happened};

use deck_cards::{Deck, Element};
use semantics::Event;
use std::alloc::{AllocError, Global};

/// `TICK NAME OLD NEW` of a resistor, `TICK NAME OLDGATE OLDDRAIN NEWGATE NEWDRAIN` of a MOS device.
#[tactic(auto, unfolding(crate::specs::Happened::event_text))]
fn event_text(alloc: Global, device: &Element, event: &Event) -> Result<String, AllocError>
    requires { IsTrue (is_device device.now) }
    ensures { IfOk result (λ text. string_bytes text ≡ event_text device.now event.now) }
{
    let Event { tick, old, new, .. } = *event;
    let name = device.name();
    match device {
        Element::Mos { .. } => {
            format!(in alloc; "{tick} {name} {} {} {} {}\n", old.0, old.1, new.0, new.1)
        }
        _ => format!(in alloc; "{tick} {name} {} {}\n", old.0, new.0),
    }
}

/// The line of an event of this deck.
#[tactic(auto, unfolding(crate::specs::Happened::event_line))]
fn event_line(alloc: Global, deck: &Deck, event: &Event) -> Result<String, AllocError>
    requires { IsEventOf deck.now event.now }
    ensures { IfOk result (λ text. string_bytes text ≡ event_line deck.now event.now) }
{
    event_text(alloc, deck.element(event.place as usize), event)
}

/// Puts the lines of these events of a deck behind the text.
fn push_events(
    alloc: Global,
    text: &mut String,
    deck: &Deck,
    told: &[Event],
) -> Result<(), AllocError>
    requires { All (IsEventOf deck.now) told.now }
    ensures { OnOk result (string_bytes text.new
        ≡ string_bytes text.old ++ flat_map (event_line deck.now) told.now) }
{
    for event in told {
        text.push_str(&event_line(alloc, deck, event)?)?;
    }
    Ok(())
}

/// The events whose ticks are in a range; all where there is none.
#[tactic(auto, unfolding(crate::specs::Happened::happened))]
fn happened(all: &[Event], range: Option<(u64, u64)>) -> &[Event]
    requires { IsNonDecreasingBy (λ event. event.tick) all.now }
    ensures { result.now ≡ happened range all.now }
{
    let Some((first, last)) = range else {
        return all;
    };
    let from_first = &all[all.partition_point(|event| event.tick < first)..];
    &from_first[..from_first.partition_point(|event| event.tick <= last)]
}

/// What `events` tells of a deck: all events of its run, or those in a range of ticks. `all` are the events of the run.
///
/// The events of the range are found by a binary search.
#[tactic(auto, unfolding(crate::specs::Happened::events_text))]
pub fn events_of_deck(
    alloc: Global,
    deck: &Deck,
    all: &[Event],
    range: Option<(u64, u64)>,
) -> Result<String, AllocError>
    requires { all.now ≡ events deck.now }
    ensures { IfOk result (λ text. string_bytes text ≡ events_text deck.now range) }
{
    let told = happened(all, range);
    let mut text = format!(in alloc; "events {}\n", told.len())?;
    push_events(alloc, &mut text, deck, told)?;
    Ok(text)
}
