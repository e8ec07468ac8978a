/// A voltage, `num / den` microvolts. It is never rounded but for printing.
#[derive(Clone, Copy, Debug, PartialEq, Eq)]
pub struct Fraction {
    pub num: i128,
    /// At least 1.
    pub den: u64,
}
