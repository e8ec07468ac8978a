/// A resistor or MOS device that is in other cells at a tick than at the tick before.
#[derive(Clone, Copy, Debug, PartialEq, Eq)]
pub struct Event {
    /// The tick at which it is in the new cells, from 1 on.
    pub tick: u64,
    /// The device's place among the elements of the deck, from 0 on.
    pub place: u32,
    /// The cells at the tick before: a resistor's and 0, or a device's gate and drain cell.
    pub old: (u32, u32),
    /// The cells at the tick.
    pub new: (u32, u32),
}
