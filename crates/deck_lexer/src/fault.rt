//! What is wrong with the text of a deck.

/// Why a deck is not read to its end; each tells the number of a line.
#[derive(Clone, Copy, Debug, PartialEq, Eq)]
pub enum LexFault {
    /// A byte of this line is 128 or more, or below 32 and neither a tab nor a CR.
    NotAscii(u32),
    /// This line continues a card, and no card stands before it.
    ContinuesNothing(u32),
    /// No line ends the deck; it has this many lines.
    NoEnd(u32),
}
