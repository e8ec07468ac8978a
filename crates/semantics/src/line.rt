/// A straight line of a node's voltage: `(num + rate * (tick - start)) / den` microvolts at a tick from `start` on.
#[derive(Clone, Copy, Debug, PartialEq, Eq)]
pub struct Line {
    /// The tick at which the line begins.
    pub start: u64,
    /// The numerator at that tick.
    pub num: i128,
    /// What the numerator gains from one tick to the next; for a free node its current in picoamperes.
    pub rate: i128,
    /// The denominator, at least 1; for a free node its capacitance in attofarads.
    pub den: u64,
}
