ghost use Rattle.std.specs.Prelude.{◌≡◌};
ghost use Rattle.deck_reader.specs.declared.why.DeckWhy.TheVariants.{Memory};
ghost use Rattle.deck_reader.specs.Text.{cause_text, which_text};

use deck_cards::Which;
use semantics::Name;
use std::alloc::{AllocError, AllocFailed};
use std::fmt;

/// Why a text is no deck. A word is told in lower case.
#[derive(Debug, Drop)]
pub enum DeckWhy {
    /// The line has a byte that a deck may not have.
    NotAscii,
    /// The line continues a card, and no card stands before it.
    ContinuesNothing,
    /// The first word is no card, or this key of a device or this word of a source is none.
    Unsupported(Name),
    /// The number of words, or a fixed word, does not fit the card.
    WrongWords,
    /// This word should be a number and is none.
    BadNumber(Name),
    /// The time of a point of a source is not above that of the point before it.
    TimesNotRising,
    /// A table has over 256 thresholds on an axis.
    TooManyThresholds,
    /// A threshold of a table is not above the one before it.
    NotRising,
    /// A table has not one current for each pair of a gate cell and a drain cell.
    WrongCount,
    /// The level of a model is not 1.
    BadLevel,
    /// An element before has this name.
    DuplicateName(Name),
    /// A model or table before has this name.
    DuplicateModel(Name),
    /// A `.tran` stands before.
    SecondTran,
    /// The capacitor or source of this name has not exactly one end at ground.
    NotGrounded(Name),
    /// A source before drives this node.
    TwoDrivers(Name),
    /// A value, or a number of things, is outside its limit. The name is that of the element, the
    /// table or the node, and for a stop tick or a grain it is the card's first word.
    Limit(Which, Name),
    /// There is no `.tran`.
    NoTran,
    /// The part of a device is not defined; the name is the part's.
    NoSuchModel(Name),
    /// This free node has no capacitance.
    Uncapped(Name),
    /// This free node has no initial voltage, and the deck no `uic`.
    NoInitial(Name),
    /// No line ends the deck.
    NoEnd,
    /// Memory is wanting. The line is then 0.
    Memory,
}

/// The first fault of a text, and the line that it is told at.
#[derive(Debug, Drop)]
pub struct DeckRefusal {
    /// The line, counted from 1 on.
    pub line: u32,
    /// What is wrong there.
    pub why: DeckWhy,
}

impl From<AllocError> for DeckWhy {
    ghost from_gives = { λ _ why. why ≡ Memory };

    fn from(_: AllocError) -> DeckWhy {
        DeckWhy::Memory
    }
}

impl<T: Drop> From<AllocFailed<T>> for DeckWhy {
    ghost from_gives = { λ _ why. why ≡ Memory };

    fn from(_: AllocFailed<T>) -> DeckWhy {
        DeckWhy::Memory
    }
}

impl From<AllocError> for DeckRefusal {
    ghost from_gives = { λ _ refusal. refusal ≡ record { line = 0; why = Memory } };

    fn from(_: AllocError) -> DeckRefusal {
        DeckRefusal {
            line: 0,
            why: DeckWhy::Memory,
        }
    }
}

/// What a limit is of, in the words that are printed.
fn which_text(which: Which) -> &'static str
    ensures { result.now ≡ which_text which }
{
    match which {
        Which::Volts => "volts",
        Which::Farads => "farads",
        Which::Ohms => "ohms",
        Which::Seconds => "seconds",
        Which::Metres => "metres",
        Which::Gain => "gain",
        Which::Grain => "grain",
        Which::Amps => "amps",
        Which::Elements => "elements",
        Which::Nodes => "nodes",
        Which::NodeFarads => "node farads",
        Which::Terminals => "terminals",
    }
}

impl fmt::Display for DeckWhy {
    ghost use Rattle.std.specs.Prelude.{Some};
    ghost use Rattle.deck_reader.specs.Text.{cause_text};

    ghost output = { λ why. Some (cause_text why) };

    fn fmt<W: fmt::Write>(&self, f: &mut fmt::Formatter<W>) -> fmt::Result {
        match self {
            DeckWhy::NotAscii => f.write_str("not ascii"),
            DeckWhy::ContinuesNothing => f.write_str("continues nothing"),
            DeckWhy::Unsupported(word) => write!(f, "unsupported {word}"),
            DeckWhy::WrongWords => f.write_str("wrong words"),
            DeckWhy::BadNumber(word) => write!(f, "bad number {word}"),
            DeckWhy::TimesNotRising => f.write_str("times not rising"),
            DeckWhy::TooManyThresholds => f.write_str("too many thresholds"),
            DeckWhy::NotRising => f.write_str("not rising"),
            DeckWhy::WrongCount => f.write_str("wrong count"),
            DeckWhy::BadLevel => f.write_str("bad level"),
            DeckWhy::DuplicateName(name) => write!(f, "duplicate name {name}"),
            DeckWhy::DuplicateModel(name) => write!(f, "duplicate model {name}"),
            DeckWhy::SecondTran => f.write_str("second .TRAN"),
            DeckWhy::NotGrounded(name) => write!(f, "not grounded {name}"),
            DeckWhy::TwoDrivers(node) => write!(f, "two drivers {node}"),
            DeckWhy::Limit(which, name) => {
                let what = which_text(*which);
                write!(f, "limit {what} {name}")
            }
            DeckWhy::NoTran => f.write_str("no .TRAN"),
            DeckWhy::NoSuchModel(name) => write!(f, "no such model {name}"),
            DeckWhy::Uncapped(node) => write!(f, "uncapped {node}"),
            DeckWhy::NoInitial(node) => write!(f, "no initial {node}"),
            DeckWhy::NoEnd => f.write_str("no .END"),
            DeckWhy::Memory => f.write_str("memory"),
        }
    }
}
