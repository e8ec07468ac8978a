use deck_reader::DeckRefusal;
use wave_script::ScriptRefusal;

/// Why the words and the bytes give no job.
#[derive(Drop)]
pub enum Refusal {
    /// The words do not fit the command.
    Words,
    /// The deck has more than 16,777,216 bytes.
    DeckTooLong,
    /// The first fault of the deck.
    Deck(DeckRefusal),
    /// The script has more than 16,777,216 bytes.
    ScriptTooLong,
    /// The first fault of the script.
    Script(ScriptRefusal),
}

/// Why there is no job.
#[derive(Drop)]
pub enum Stop {
    /// The words and the bytes give none.
    Refused(Refusal),
    /// A file could not be read.
    Read,
    /// Memory is wanting.
    Memory,
}
