ghost use Rattle.std.specs.Prelude.{◌≡◌, ◌≤◌, ◌<◌, ◌^◌, ℕ, length, unsigned_abs, All};
ghost use Rattle.fault_sweep.specs.Stretches.{total, AreOn, AreOnTo};

use crate::hold::Hold;

/// What flows into a node through all its devices, and the tick before which it stays so.
#[derive(Clone, Copy)]
pub(crate) struct Inflow {
    pub(crate) current: i128,
    pub(crate) until: u64,
}

impl Inflow {
    /// What flows in by these holds, before `end`.
    pub(crate) fn over(holds: &[Hold], end: u64) -> Inflow
        requires few { length holds.now ≤ 10 ^ 5 }
        requires small { All (λ hold. unsigned_abs hold.inflow ≤ 10 ^ 12) holds.now }
        ensures current { result.current ≡ total holds.now }
        ensures small { unsigned_abs result.current ≤ 10 ^ 17 }
        ensures by_end { result.until ≤ end }
        ensures by_holds { AreOnTo result.until holds.now }
        ensures later { (now : ℕ) → now < end
            → AreOn (length holds.now) now holds.now → now < result.until }
    {
        let mut inflow = Inflow {
            current: 0,
            until: end,
        };
        for hold in holds {
            inflow.current += i128::from(hold.inflow);
            inflow.until = inflow.until.min(hold.until);
        }
        inflow
    }
}
