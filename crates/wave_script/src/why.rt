ghost use Rattle.std.specs.Prelude.{◌≡◌};
ghost use Rattle.wave_script.specs.Answers.{card_why};
ghost use Rattle.wave_script.specs.declared.why.ScriptWhy.TheVariants.{Memory};

use deck_reader::DeckWhy;
use semantics::Name;
use std::alloc::{AllocError, AllocFailed};
use std::fmt;

/// Why a text is no script. A word is told in lower case.
#[derive(Debug, Drop)]
pub enum ScriptWhy {
    /// The line has a byte that a script may not have.
    NotAscii,
    /// The first word is no command.
    UnknownCommand(Name),
    /// The number of words does not fit the command, or the first of two ticks is above the second.
    WrongWords,
    /// The words of the card of a source or an element have this fault: `Unsupported`, `WrongWords`
    /// or `TimesNotRising`.
    BadCard(DeckWhy),
    /// This word should be a number and is none, or a tick that is below 0.
    BadNumber(Name),
    /// This name is not bound to a version.
    NoSuchPin(Name),
    /// Memory is wanting. The line is then 0.
    Memory,
}

/// The first fault of a script, and its line.
#[derive(Debug, Drop)]
pub struct ScriptRefusal {
    /// The line, counted from 1 on.
    pub line: u32,
    /// What is wrong there.
    pub why: ScriptWhy,
}

/// A fault of the words of a card, in a script.
pub fn card_why(why: DeckWhy) -> ScriptWhy
    ensures { result ≡ card_why why }
{
    match why {
        DeckWhy::BadNumber(word) => ScriptWhy::BadNumber(word),
        DeckWhy::Memory => ScriptWhy::Memory,
        why => ScriptWhy::BadCard(why),
    }
}

impl From<AllocError> for ScriptWhy {
    ghost from_gives = { λ _ why. why ≡ Memory };

    fn from(_: AllocError) -> ScriptWhy {
        ScriptWhy::Memory
    }
}

impl<T: Drop> From<AllocFailed<T>> for ScriptWhy {
    ghost from_gives = { λ _ why. why ≡ Memory };

    fn from(_: AllocFailed<T>) -> ScriptWhy {
        ScriptWhy::Memory
    }
}

impl From<AllocError> for ScriptRefusal {
    ghost from_gives = { λ _ refusal. refusal ≡ record { line = 0; why = Memory } };

    fn from(_: AllocError) -> ScriptRefusal {
        ScriptRefusal {
            line: 0,
            why: ScriptWhy::Memory,
        }
    }
}

impl fmt::Display for ScriptWhy {
    ghost use Rattle.std.specs.Prelude.{Some};
    ghost use Rattle.wave_script.specs.Text.{cause_text};

    ghost output = { λ why. Some (cause_text why) };

    fn fmt<W: fmt::Write>(&self, f: &mut fmt::Formatter<W>) -> fmt::Result {
        match self {
            ScriptWhy::NotAscii => f.write_str("not ascii"),
            ScriptWhy::UnknownCommand(word) => write!(f, "unknown command {word}"),
            ScriptWhy::WrongWords => f.write_str("wrong words"),
            ScriptWhy::BadCard(why) => write!(f, "bad card {why}"),
            ScriptWhy::BadNumber(word) => write!(f, "bad number {word}"),
            ScriptWhy::NoSuchPin(word) => write!(f, "no such pin {word}"),
            ScriptWhy::Memory => f.write_str("memory"),
        }
    }
}
