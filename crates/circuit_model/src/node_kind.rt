/// What a name is in a deck.
#[derive(Clone, Copy, Debug, PartialEq, Eq)]
pub enum NodeKind {
    /// It is no node of the deck.
    Absent,
    /// A source drives it.
    Driven,
    /// No source drives it: its voltage is its charge over its capacitance.
    Free,
}
