ghost use Rattle.std.specs.Prelude.{◌≡◌, IfOk};

use semantics::{Element, Name, Wave};
use std::alloc::AllocError;

/// One change of a deck.
#[derive(Drop)]
pub enum Edit {
    /// Gives the resistor of this name another resistance.
    SetR {
        name: Name,
        /// The resistance in milliohms, 1 mΩ to 1 TΩ.
        ohms: i64,
    },
    /// Gives the capacitor of this name another capacitance.
    SetC {
        name: Name,
        /// The capacitance in attofarads, 0 to 1 µF.
        farads: i64,
    },
    /// Gives the source of this name another voltage.
    SetWave {
        name: Name,
        wave: Wave,
    },
    /// Gives the device of this name another model or table.
    SetModel {
        name: Name,
        /// The name of the model or table, which the deck has.
        part: Name,
    },
    /// Gives a node a voltage at the beginning, in place of the one that it was given, if any. The
    /// name may be that of no node, and stands then for a node that is to come.
    SetIc {
        node: Name,
        /// The voltage in microvolts, at most 1,000 V in size.
        volts: i64,
    },
    /// Puts an element behind the others.
    Add(Element),
    /// Takes out the element of this name.
    Remove(Name),
}

impl Edit {
    /// An equal edit.
    ///
    /// # Errors
    ///
    /// Where memory is wanting.
    pub fn copy(&self) -> Result<Edit, AllocError>
        ensures { IfOk result (λ edit. edit ≡ self.now) }
    {
        match self {
            Edit::SetR { name, ohms } => Ok(Edit::SetR {
                name: name.copy()?,
                ohms: *ohms,
            }),
            Edit::SetC { name, farads } => Ok(Edit::SetC {
                name: name.copy()?,
                farads: *farads,
            }),
            Edit::SetWave { name, wave } => Ok(Edit::SetWave {
                name: name.copy()?,
                wave: wave.copy()?,
            }),
            Edit::SetModel { name, part } => Ok(Edit::SetModel {
                name: name.copy()?,
                part: part.copy()?,
            }),
            Edit::SetIc { node, volts } => Ok(Edit::SetIc {
                node: node.copy()?,
                volts: *volts,
            }),
            Edit::Add(element) => Ok(Edit::Add(element.copy()?)),
            Edit::Remove(name) => Ok(Edit::Remove(name.copy()?)),
        }
    }
}
