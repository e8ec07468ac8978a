ghost use Rattle.std.specs.Prelude.{◌≡◌, pos};
ghost use Rattle.spice_num.specs.Units.{unit_power, unit_suffix};

/// What a number counts.
#[derive(Clone, Copy, Debug, PartialEq, Eq)]
pub enum Unit {
    /// Picoseconds.
    Time,
    /// Microvolts.
    Volt,
    /// Attofarads.
    Farad,
    /// Milliohms.
    Ohm,
    /// Picoamperes.
    Amp,
    /// Picometres.
    Length,
    /// Picoamperes per square volt.
    Gain,
    /// Ones.
    Plain,
}

impl Unit {
    /// How many units are one second, one volt and so on, as a power of ten.
    pub(crate) fn power(self) -> i128
        ensures { result ≡ pos (unit_power self) }
    {
        match self {
            Unit::Farad => 18,
            Unit::Time | Unit::Amp | Unit::Length | Unit::Gain => 12,
            Unit::Volt => 6,
            Unit::Ohm => 3,
            Unit::Plain => 0,
        }
    }

    /// What is written behind the digits of a number of the unit.
    pub(crate) fn suffix(self) -> &'static str
        ensures { result.now ≡ unit_suffix self }
    {
        match self {
            Unit::Farad => "e-18",
            Unit::Time | Unit::Amp | Unit::Length | Unit::Gain => "p",
            Unit::Volt => "u",
            Unit::Ohm => "m",
            Unit::Plain => "",
        }
    }
}
