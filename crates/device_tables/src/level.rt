ghost use Rattle.std.specs.Prelude.{◌≡◌, ◌≤◌, ◌*◌, ◌^◌, ◌≤ℤ◌, pos, unsigned_abs, IsTrue};
ghost use Rattle.semantics.specs.Grid.{uniform};
ghost use Rattle.semantics.specs.Part as part;
ghost use Rattle.semantics.specs.Valid.{some_gain, some_grain, some_metres, small_vto};
ghost use Rattle.device_tables.specs.Level.{LevelValue};

use crate::grid::Grid;
use crate::ratio::Ratio;
use semantics::Channel;
use std::marker::Model;

/// Half the thresholds of both grids, and the middle cell of each.
const HALF: u32 = 128;

/// A level 1 model for a device of one width and length. A contract sees what it was made of.
#[derive(Debug, Drop)]
pub(crate) struct Level {
    channel: Channel,
    vto: i64,
    kp: i64,
    width: i64,
    len: i64,
    grain: u32,
    /// The grid of gate minus source and of drain minus source.
    grid: Grid,
    /// `kp · width / (len · 2 · 10^12)`: how many pA a square of 1 µV² gives.
    gain: Ratio,
}

impl Model for Level {
    ghost use Rattle.device_tables.specs.Level.{LevelValue, IsLevel};

    ghost Value = { LevelValue };

    ghost view = { λ l. record {
      channel = l.channel;
      vto = l.vto;
      kp = l.kp;
      width = l.width;
      len = l.len;
      grain = l.grain;
    } };

    ghost invariant = { λ l. IsLevel l.vto l.kp l.width l.len l.grain l.grid l.gain };
}

impl Level {
    /// The model of this channel, threshold voltage in µV, gain in pA/V², width and length in pm, at this grain in µV.
    pub(crate) fn new(
        channel: Channel,
        vto: i64,
        kp: i64,
        width: i64,
        len: i64,
        grain: u32,
    ) -> Level
        requires vto { IsTrue (small_vto vto) }
        requires kp { IsTrue (some_gain kp) }
        requires width { IsTrue (some_metres width) }
        requires len { IsTrue (some_metres len) }
        requires grain { IsTrue (some_grain grain) }
        ensures { result ≡ record { channel = channel; vto = vto; kp = kp; width = width; len = len; grain = grain } }
    {
        Level {
            channel,
            vto,
            kp,
            width,
            len,
            grain,
            grid: Grid::uniform(grain, HALF),
            gain: Ratio::of(kp.unsigned_abs(), width.unsigned_abs(), len.unsigned_abs()),
        }
    }

    /// The grid of both voltages.
    pub(crate) fn grid(&self) -> &Grid
        ensures { result.now ≡ uniform self.now.grain 128 }
    {
        &self.grid
    }

    /// The current in pA in these cells, at most 1 A in size.
    pub(crate) fn current(&self, gate_cell: u32, drain_cell: u32) -> i64
        requires gate { gate_cell ≤ 256 }
        requires drain { drain_cell ≤ 256 }
        ensures value { let m = self.now in
            result ≡ part.part_current m.grain (part.Level m.channel m.vto m.kp) m.width m.len gate_cell drain_cell }
        ensures size { unsigned_abs result ≤ 10 ^ 12 }
    {
        let vgs = self.middle(gate_cell);
        let vds = self.middle(drain_cell);
        match self.channel {
            Channel::N => self.n_current(self.vto, vgs, vds),
            Channel::P => -self.n_current(-self.vto, -vgs, -vds),
        }
    }

    /// The voltage in µV at the middle of a cell.
    fn middle(&self, cell: u32) -> i64
        requires { cell ≤ 256 }
        ensures value { result ≡ part.middle self.now.grain cell }
        ensures size { unsigned_abs result ≤ 128 * 10 ^ 6 }
    {
        (i64::from(cell) - i64::from(HALF)) * i64::from(self.grain)
    }

    /// The current of an n-channel device: drain and source change places where the drain is below the source.
    fn n_current(&self, vto: i64, vgs: i64, vds: i64) -> i64
        requires vto { unsigned_abs vto ≤ 10 ^ 8 }
        requires vgs { unsigned_abs vgs ≤ 128 * 10 ^ 6 }
        requires vds { unsigned_abs vds ≤ 128 * 10 ^ 6 }
        ensures value { result ≡ part.n_current vto self.now.kp self.now.width self.now.len vgs vds }
        ensures size { unsigned_abs result ≤ 10 ^ 12 }
    {
        if 0 <= vds {
            self.forward(vto, vgs, vds)
        } else {
            -self.forward(vto, vgs - vds, -vds)
        }
    }

    /// The current of an n-channel device whose drain is not below its source.
    fn forward(&self, vto: i64, vgs: i64, vds: i64) -> i64
        requires vto { unsigned_abs vto ≤ 10 ^ 8 }
        requires vgs { unsigned_abs vgs ≤ 256 * 10 ^ 6 }
        requires forward { pos 0 ≤ℤ vds }
        requires vds { unsigned_abs vds ≤ 128 * 10 ^ 6 }
        ensures value { result ≡ part.forward vto self.now.kp self.now.width self.now.len vgs vds }
        ensures size { unsigned_abs result ≤ 10 ^ 12 }
    {
        self.gain.times(square(vgs - vto, vds))
    }
}

/// Twice the drain factor in µV² of a gate that is `vov` µV above the threshold voltage and a drain `vds` µV above the
/// source: 0 where the gate is not above it.
fn square(vov: i64, vds: i64) -> u64
    requires vov { unsigned_abs vov ≤ 4 * 10 ^ 8 }
    requires forward { pos 0 ≤ℤ vds }
    requires vds { unsigned_abs vds ≤ 128 * 10 ^ 6 }
    ensures value { pos result ≡ part.square_law vov vds }
    ensures size { result ≤ 16 * 10 ^ 16 }
{
    if vov <= 0 {
        0
    } else {
        open_square(vov as u64, vds as u64)
    }
}

/// The same of a gate above the threshold voltage: linear and saturated.
fn open_square(vov: u64, vds: u64) -> u64
    requires vov { vov ≤ 4 * 10 ^ 8 }
    requires above { 1 ≤ vov }
    requires vds { vds ≤ 128 * 10 ^ 6 }
    ensures value { pos result ≡ part.square_law (pos vov) (pos vds) }
    ensures size { result ≤ 16 * 10 ^ 16 }
{
    if vds < vov {
        2 * vov * vds - vds * vds
    } else {
        vov * vov
    }
}
