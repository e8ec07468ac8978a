/// Where an end of a device leads: to a node by its number, and else to ground.
pub(crate) type End = Option<u32>;

/// Where the ends of a device lead: each to a node by its number, or to ground where it is `None`. A resistor has no gate.
#[derive(Clone, Copy, Debug, PartialEq, Eq)]
pub struct Ends {
    /// The first end of a resistor, or the drain: current flows out of it.
    pub first: Option<u32>,
    /// The second end of a resistor, or the source.
    pub second: Option<u32>,
    pub gate: Option<u32>,
}
