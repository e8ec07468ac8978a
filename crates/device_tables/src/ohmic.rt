ghost use Rattle.std.specs.Prelude.{◌≡◌, ◌≤◌, IsTrue};
ghost use Rattle.semantics.specs.Valid.{some_grain, some_ohms};
ghost use Rattle.semantics.specs.Device.{resistor_current};

/// The middle cell of a resistor's grid, where no current flows.
const MIDDLE: i64 = 4096;

/// The most current in size, 1 A in pA.
const MOST: i64 = 1_000_000_000_000;

/// The current in pA out of the first node of a resistor of `ohms` mΩ into its second, in a cell of its grid, which is
/// `Grid::uniform(grain, 4096)`. It is that of the voltage in the cell's middle, towards zero, and cut to 1 A in size.
/// `grain` is even and from 2 to 10^6 µV, `ohms` from 1 to 10^15, and `cell` at most 8,192.
pub fn resistor(grain: u32, ohms: i64, cell: u32) -> i64
    requires grain { IsTrue (some_grain grain) }
    requires ohms { IsTrue (some_ohms ohms) }
    requires cell { cell ≤ 8192 }
    ensures { result ≡ resistor_current grain ohms cell }
{
    // In pA · mΩ.
    let voltage = (i64::from(cell) - MIDDLE) * (i64::from(grain) * 1_000_000_000);
    (voltage / ohms).min(MOST).max(-MOST)
}
