//! The limits of the values that a card gives.

ghost use Rattle.std.specs.Prelude.{◌≡◌, ◌&&◌};
ghost use Rattle.std.specs.List.{list_all};
ghost use Rattle.semantics.specs.Valid as valid;

/// Whether a voltage in microvolts is at most 1,000 V in size.
pub fn is_small(volts: i64) -> bool
    ensures { result ≡ valid.small_volts volts }
{
    volts.unsigned_abs() <= 1_000_000_000
}

/// Whether each threshold in microvolts is at most 1,000 V in size.
pub fn are_small_volts(thresholds: &[i64]) -> bool
    ensures { result ≡ list_all valid.small_volts thresholds.now }
{
    thresholds.iter().all(|volts| is_small(*volts))
}

/// Whether a resistance in milliohms is 1 mΩ to 1 TΩ.
pub fn is_some_ohms(ohms: i64) -> bool
    ensures { result ≡ valid.some_ohms ohms }
{
    1 <= ohms && ohms <= 1_000_000_000_000_000
}

/// Whether a capacitance in attofarads is 0 to 1 µF.
pub fn is_some_farads(farads: i64) -> bool
    ensures { result ≡ valid.some_farads farads }
{
    0 <= farads && farads <= 1_000_000_000_000
}

/// Whether a length in picometres is 1 pm to 1 mm.
pub fn is_some_metres(metres: i64) -> bool
    ensures { result ≡ valid.some_metres metres }
{
    1 <= metres && metres <= 1_000_000_000
}

/// Whether the threshold voltage of a model in microvolts is at most 100 V in size.
pub fn is_small_vto(vto: i64) -> bool
    ensures { result ≡ valid.small_vto vto }
{
    vto.unsigned_abs() <= 100_000_000
}

/// Whether the gain of a model in picoamperes per square volt is 0 to 100 mA per square volt.
pub fn is_some_gain(kp: i64) -> bool
    ensures { result ≡ valid.some_gain kp }
{
    0 <= kp && kp <= 100_000_000_000
}

/// Whether a time in picoseconds is at most 10 ms.
pub fn is_short(tick: u64) -> bool
    ensures { result ≡ valid.short_time tick }
{
    tick <= 10_000_000_000
}

/// Whether a grain in microvolts is even, and 2 µV to 1 V.
pub fn is_some_grain(grain: u64) -> bool
    ensures { result ≡ valid.some_grain grain }
{
    grain % 2 == 0 && 2 <= grain && grain <= 1_000_000
}

/// Whether each current in picoamperes is at most 1 A in size.
pub fn are_some_amps(amps: &[i64]) -> bool
    ensures { result ≡ list_all valid.small_amps amps.now }
{
    amps.iter()
        .all(|amps| amps.unsigned_abs() <= 1_000_000_000_000)
}
