ghost use Rattle.std.specs.Prelude.{◌≡◌, IfOk};
ghost use Rattle.std.specs.Option.{option_map};
ghost use Rattle.semantics.specs.Deck.{name_of, drives};
ghost use Rattle.semantics.specs.Valid.{one_ground, is_grounded};

use crate::name::Name;
use crate::wave::Wave;
use std::alloc::AllocError;

/// A part of the circuit, as its card gives it. The first letter of its name says its kind.
#[derive(Drop)]
pub enum Element {
    /// A resistor; its current flows out of `first` into `second`.
    Resistor {
        name: Name,
        first: Name,
        second: Name,
        /// The resistance in milliohms.
        ohms: i64,
    },
    /// A capacitor between a node and ground.
    Capacitor {
        name: Name,
        plus: Name,
        minus: Name,
        /// The capacitance in attofarads.
        farads: i64,
    },
    /// A voltage source between a node and ground, which drives the node.
    Source {
        name: Name,
        plus: Name,
        minus: Name,
        wave: Wave,
    },
    /// A MOS device; its current flows out of `drain` into `source`, and gate and bulk carry none.
    Mos {
        name: Name,
        drain: Name,
        gate: Name,
        source: Name,
        bulk: Name,
        /// The name of its model or table.
        part: Name,
        /// The channel's length in picometres.
        length: i64,
        /// The channel's width in picometres.
        width: i64,
    },
}

/// Whether exactly one of the two is ground.
fn is_one_ground(plus: &Name, minus: &Name) -> bool
    ensures { result ≡ one_ground plus.now minus.now }
{
    if plus.is_ground() {
        !minus.is_ground()
    } else {
        minus.is_ground()
    }
}

impl Element {
    /// Its name.
    pub fn name(&self) -> &Name
        ensures { result.now ≡ name_of self.now }
    {
        match self {
            Element::Resistor { name, .. } => name,
            Element::Capacitor { name, .. } => name,
            Element::Source { name, .. } => name,
            Element::Mos { name, .. } => name,
        }
    }

    /// Whether it stands between a node and ground, where it is a capacitor or a source.
    pub fn is_grounded(&self) -> bool
        ensures { result ≡ is_grounded self.now }
    {
        match self {
            Element::Source { plus, minus, .. } => is_one_ground(plus, minus),
            Element::Capacitor { plus, minus, .. } => is_one_ground(plus, minus),
            Element::Resistor { .. } => true,
            Element::Mos { .. } => true,
        }
    }

    /// What it drives the node with, and whether the node is its second, so that it is driven with
    /// the sign turned. `None` exactly where it does not drive the node.
    pub fn drive_of<'a>(&'a self, node: &Name) -> Option<(&'a Wave, bool)>
        ensures { option_map (λ d. (d.0.now, d.1)) result ≡ drives node.now self.now }
    {
        match self {
            Element::Source {
                plus,
                minus,
                wave,
                ..
            } => {
                if node == plus {
                    Some((wave, false))
                } else if node == minus {
                    Some((wave, true))
                } else {
                    None
                }
            }
            Element::Resistor { .. } => None,
            Element::Capacitor { .. } => None,
            Element::Mos { .. } => None,
        }
    }

    /// An equal element.
    pub fn copy(&self) -> Result<Element, AllocError>
        ensures { IfOk result (λ element. element ≡ self.now) }
    {
        match self {
            Element::Resistor {
                name,
                first,
                second,
                ohms,
            } => Ok(Element::Resistor {
                name: name.copy()?,
                first: first.copy()?,
                second: second.copy()?,
                ohms: *ohms,
            }),
            Element::Capacitor {
                name,
                plus,
                minus,
                farads,
            } => Ok(Element::Capacitor {
                name: name.copy()?,
                plus: plus.copy()?,
                minus: minus.copy()?,
                farads: *farads,
            }),
            Element::Source {
                name,
                plus,
                minus,
                wave,
            } => Ok(Element::Source {
                name: name.copy()?,
                plus: plus.copy()?,
                minus: minus.copy()?,
                wave: wave.copy()?,
            }),
            Element::Mos {
                name,
                drain,
                gate,
                source,
                bulk,
                part,
                length,
                width,
            } => Ok(Element::Mos {
                name: name.copy()?,
                drain: drain.copy()?,
                gate: gate.copy()?,
                source: source.copy()?,
                bulk: bulk.copy()?,
                part: part.copy()?,
                length: *length,
                width: *width,
            }),
        }
    }
}
