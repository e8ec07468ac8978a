/// The kind of channel of a MOS device.
#[derive(Clone, Copy, Debug, PartialEq, Eq, Hash)]
pub enum Channel {
    /// Electrons carry the current: it conducts where the gate is high.
    N,
    /// Holes carry the current: it conducts where the gate is low.
    P,
}
