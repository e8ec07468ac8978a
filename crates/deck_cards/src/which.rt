use std::fmt;

/// What a limit is of.
#[derive(Clone, Copy, Debug, PartialEq, Eq)]
pub enum Which {
    /// A voltage, at most 1,000 V in size, and 100 V for the threshold voltage of a model.
    Volts,
    /// A capacitor, 0 to 1 µF.
    Farads,
    /// A resistance, 1 mΩ to 1 TΩ.
    Ohms,
    /// A time, at most 10 ms.
    Seconds,
    /// A length or width of a channel, 1 pm to 1 mm.
    Metres,
    /// The gain of a model, at most 100 mA per square volt.
    Gain,
    /// The grain, an even number of microvolts from 2 µV to 1 V.
    Grain,
    /// A current of a table, at most 1 A in size.
    Amps,
    /// 100,000 elements.
    Elements,
    /// 100,000 nodes.
    Nodes,
    /// The capacitance of a free node, at most 1 µF.
    NodeFarads,
    /// 1,000 ends that carry current at a free node.
    Terminals,
}

impl fmt::Display for Which {
    ghost use Rattle.std.specs.Prelude.{Some};
    ghost use Rattle.deck_cards.specs.Text.{which_text};

    ghost output = { λ which. Some (which_text which) };

    fn fmt<W: fmt::Write>(&self, f: &mut fmt::Formatter<W>) -> fmt::Result {
        f.write_str(match self {
            Which::Volts => "volts",
            Which::Farads => "farads",
            Which::Ohms => "ohms",
            Which::Seconds => "seconds",
            Which::Metres => "metres",
            Which::Gain => "gain",
            Which::Grain => "grain",
            Which::Amps => "amps",
            Which::Elements => "elements",
            Which::Nodes => "nodes",
            Which::NodeFarads => "node farads",
            Which::Terminals => "terminals",
        })
    }
}
