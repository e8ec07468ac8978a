ghost use Rattle.std.specs.Prelude.{◌≡◌, ◌<◌, is_some, length, map, slice_get, IfOk, IfSome, IsTrue, Some};
ghost use Rattle.std.specs.Option.{option_map};
ghost use Rattle.semantics.specs.Deck.{look_up, nodes};
ghost use Rattle.semantics.specs.Valid.{is_valid, some_metres};
ghost use Rattle.circuit_model.specs.Kept.{device_in, law_in, part_law, table_at, AreKept};
ghost use Rattle.circuit_model.specs.Wiring.{device_at, devices_of};

use crate::device::{Device, Law};
use crate::ends::Ends;
use crate::node_names::NodeNames;
use deck_cards::{Deck, Part};
use device_tables::Table;
use semantics::{Element, Name};
use std::alloc::{AllocError, Global};

/// What sets the current of a device, as it is kept beside its deck.
#[derive(Drop)]
enum KeptLaw {
    /// The resistance in milliohms.
    Ohms(i64),
    /// The listed table that is the deck's part at this place.
    Listed(usize),
    /// That of a model for the device's width and length, which is the device's own.
    Level(Table),
}

impl KeptLaw {
    /// That of the part of this name for a device of this width and length, in picometres.
    fn of(deck: &Deck, part: &Name, width: i64, length: i64) -> Option<KeptLaw>
        requires valid { IsTrue (is_valid deck.now) }
        requires width { IsTrue (some_metres width) }
        requires length { IsTrue (some_metres length) }
        ensures { option_map (law_in deck.now) result
            ≡ option_map (part_law deck.now width length) (look_up part.now deck.now.parts) }
    {
        let place = deck.part_place(part)?;
        let law = match deck.part_at(place) {
            Part::Listed(_) => KeptLaw::Listed(place),
            Part::Level { channel, vto, kp } => {
                let grain = deck.grain();
                KeptLaw::Level(Table::level_one(*channel, *vto, *kp, width, length, grain))
            }
        };
        Some(law)
    }
}

/// A resistor or MOS device of a deck, as it is kept beside the deck: a listed table is the deck's.
#[derive(Drop)]
pub struct KeptDevice {
    /// Its place among the elements of the deck.
    place: u32,
    ends: Ends,
    law: KeptLaw,
}

impl KeptDevice {
    /// The device of the element at this place, where it is one.
    fn at(deck: &Deck, names: &NodeNames, place: usize) -> Option<KeptDevice>
        requires valid { IsTrue (is_valid deck.now) }
        requires place { place < length deck.now.elements }
        ensures { IfSome (slice_get deck.now.elements place) (λ e.
            option_map (device_in deck.now) result ≡ option_map Some (device_at deck.now names.now place e)) }
    {
        let (ends, law) = match deck.element(place) {
            Element::Resistor {
                first,
                second,
                ohms,
                ..
            } => {
                let ends = Ends {
                    first: names.find(first),
                    second: names.find(second),
                    gate: None,
                };
                (ends, KeptLaw::Ohms(*ohms))
            }
            Element::Mos {
                drain,
                gate,
                source,
                part,
                length,
                width,
                ..
            } => {
                let law = KeptLaw::of(deck, part, *width, *length)?;
                let ends = Ends {
                    first: names.find(drain),
                    second: names.find(source),
                    gate: names.find(gate),
                };
                (ends, law)
            }
            Element::Capacitor { .. } | Element::Source { .. } => return None,
        };
        Some(KeptDevice {
            place: place as u32,
            ends,
            law,
        })
    }

    /// Where its ends lead.
    pub(crate) fn ends(&self) -> Ends
        ensures { result ≡ self.now.ends }
    {
        self.ends
    }

    /// The device, by the deck beside which it is kept.
    pub(crate) fn read<'a>(&'a self, deck: &'a Deck) -> Device<'a>
        requires { IsTrue (is_some (device_in deck.now self.now)) }
        ensures { device_in deck.now self.now ≡ Some result }
    {
        let law = match &self.law {
            KeptLaw::Ohms(ohms) => Law::Ohms(*ohms),
            KeptLaw::Listed(place) => Law::Gated(listed(deck, *place)),
            KeptLaw::Level(table) => Law::Gated(table),
        };
        Device::of(self.place, self.ends, law)
    }
}

/// The listed table that is the part at this place.
fn listed(deck: &Deck, place: usize) -> &Table
    requires { IsTrue (is_some (table_at deck.now place)) }
    ensures { table_at deck.now place ≡ Some result.now }
{
    match deck.part_at(place) {
        Part::Listed(table) => table,
        Part::Level { .. } => unreachable!(),
    }
}

/// The devices of a deck, by their places among its elements, where its nodes have the numbers of these names.
pub(crate) fn kept_devices(
    alloc: Global,
    deck: &Deck,
    names: &NodeNames,
) -> Result<Vec<KeptDevice>, AllocError>
    requires { IsTrue (is_valid deck.now) }
    ensures { IfOk result (λ kept. map (device_in deck.now) kept.items ≡ map Some (devices_of deck.now names.now)) }
{
    let mut kept = Vec::new(alloc);
    for place in 0..deck.len() {
        if let Some(device) = KeptDevice::at(deck, names, place) {
            kept.push(device)?;
        }
    }
    Ok(kept)
}

/// The same where the nodes have the numbers of their places.
pub(crate) fn plain_devices(alloc: Global, deck: &Deck) -> Result<Vec<KeptDevice>, AllocError>
    requires { IsTrue (is_valid deck.now) }
    ensures { IfOk result (λ kept. map (device_in deck.now) kept.items ≡ map Some (devices_of deck.now (nodes deck.now))) }
{
    let names = NodeNames::new().with_nodes(alloc, deck)?;
    kept_devices(alloc, deck, &names)
}

/// The devices that are kept beside a deck, in their order.
pub(crate) fn read_devices<'a>(
    alloc: Global,
    deck: &'a Deck,
    kept: &'a [KeptDevice],
) -> Result<Vec<Device<'a>>, AllocError>
    requires { AreKept deck.now kept.now }
    ensures { IfOk result (λ devices. map Some devices.items ≡ map (device_in deck.now) kept.now) }
{
    let mut devices = Vec::with_capacity(alloc, kept.len())?;
    for device in kept {
        devices.push(device.read(deck))?;
    }
    Ok(devices)
}
