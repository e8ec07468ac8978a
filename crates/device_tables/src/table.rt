ghost use Rattle.std.specs.Prelude.{◌≡◌, ◌≤◌, ◌<◌, ◌^◌, ◌↔◌, length, unsigned_abs, IsTrue, IsOk, IfOk};
ghost use Rattle.std.specs.Result.{result_err};
ghost use Rattle.semantics.specs.Part as part;
ghost use Rattle.semantics.specs.Valid.{is_part, some_gain, some_grain, some_metres, small_vto};
ghost use Rattle.device_tables.specs.Level.{level_table};
ghost use Rattle.device_tables.specs.Table.{is_small_grid};
ghost use Rattle.device_tables.specs.Refusal.{table_refusal};

use crate::grid::Grid;
use crate::level::Level;
use crate::refusal::{TableRefusal, table_refusal};
use semantics::Channel;
use std::marker::Model;

/// What a table keeps of its grids and currents.
#[derive(Debug, Drop)]
enum Entries {
    /// The currents by gate cell, and within it by drain cell.
    Listed {
        gate: Grid,
        drain: Grid,
        amps: Vec<i64>,
    },
    /// A level 1 model, whose currents are computed when they are asked for.
    Level(Level),
}

/// A table of the current in pA that flows through a device out of its drain into its source, for each cell of gate
/// minus source and each cell of drain minus source.
#[derive(Debug, Drop)]
pub struct Table {
    entries: Entries,
}

impl Model for Table {
    ghost use Rattle.std.specs.Prelude.{IsTrue};
    ghost use Rattle.device_tables.specs.Table.{TableValue};

    ghost Value = { TableValue };

    ghost use Rattle.device_tables.specs.Kept.{table_of, is_table};

    ghost view = { λ t. table_of t.entries };

    ghost invariant = { λ t. IsTrue (is_table (table_of t.entries)) };
}

impl Table {
    /// The table with these grids and these currents in pA, by gate cell and within it by drain cell. Each grid has at
    /// most 256 thresholds of at most 1,000 V in size.
    ///
    /// # Errors
    ///
    /// `WrongCount` where there is not one current for each pair of cells, otherwise `CurrentTooLarge` with the place of
    /// the first that is over 1 A in size.
    pub fn explicit(gate: Grid, drain: Grid, amps: Vec<i64>) -> Result<Table, TableRefusal>
        requires gate { IsTrue (is_small_grid gate) }
        requires drain { IsTrue (is_small_grid drain) }
        requires amps { length amps.items < 2 ^ 32 }
        ensures table { IfOk result (λ t. t ≡ record { gate = gate; drain = drain; amps = amps.items }) }
        ensures cause { result_err result ≡ table_refusal gate drain amps.items }
        ensures valid { IsOk result ↔ IsTrue (is_part (part.Listed gate drain amps.items)) }
    {
        match table_refusal(&gate, &drain, &amps) {
            Some(refusal) => Err(refusal),
            None => Ok(Table {
                entries: Entries::Listed { gate, drain, amps },
            }),
        }
    }

    /// The table of a level 1 model at a grain in µV, for a device of this width and length in pm: both grids are
    /// uniform with 128 thresholds on either side of 0, and the current in two cells is that of the square law at their
    /// middles, divided once and towards zero. `vto` is the threshold voltage in µV, at most 100 V in size, and `kp` the
    /// gain in pA/V², from 0 to 10^11. `width` and `length` are from 1 to 10^9, and `grain` is even and from 2 to 10^6.
    pub fn level_one(
        channel: Channel,
        vto: i64,
        kp: i64,
        width: i64,
        length: i64,
        grain: u32,
    ) -> Table
        requires vto { IsTrue (small_vto vto) }
        requires kp { IsTrue (some_gain kp) }
        requires width { IsTrue (some_metres width) }
        requires length { IsTrue (some_metres length) }
        requires grain { IsTrue (some_grain grain) }
        ensures { result ≡ level_table channel vto kp width length grain }
    {
        Table {
            entries: Entries::Level(Level::new(channel, vto, kp, width, length, grain)),
        }
    }

    /// The current in pA in these cells, at most 1 A in size.
    pub fn current(&self, gate_cell: u32, drain_cell: u32) -> i64
        requires gate { gate_cell ≤ length self.now.gate }
        requires drain { drain_cell ≤ length self.now.drain }
        ensures value { result ≡ part.listed_current self.now.drain self.now.amps gate_cell drain_cell }
        ensures size { unsigned_abs result ≤ 10 ^ 12 }
    {
        match &self.entries {
            Entries::Listed { drain, amps, .. } => {
                amps[gate_cell as usize * (drain.len() as usize + 1) + drain_cell as usize]
            }
            Entries::Level(level) => level.current(gate_cell, drain_cell),
        }
    }

    /// The grid of gate minus source.
    pub fn gate(&self) -> &Grid
        ensures grid { result.now ≡ self.now.gate }
        ensures valid { IsTrue (is_part (part.Listed self.now.gate self.now.drain self.now.amps)) }
    {
        match &self.entries {
            Entries::Listed { gate, .. } => gate,
            Entries::Level(level) => level.grid(),
        }
    }

    /// The grid of drain minus source.
    pub fn drain(&self) -> &Grid
        ensures grid { result.now ≡ self.now.drain }
        ensures valid { IsTrue (is_part (part.Listed self.now.gate self.now.drain self.now.amps)) }
    {
        match &self.entries {
            Entries::Listed { drain, .. } => drain,
            Entries::Level(level) => level.grid(),
        }
    }
}
