ghost use Rattle.std.specs.Prelude.{◌≡◌};
ghost use Rattle.deck_cards.specs.declared.edit_refusal.EditRefusal.TheVariants as refusal;

use crate::which::Which;
use semantics::Name;
use std::alloc::AllocError;
use std::fmt;

/// Why an edit can't be made, or parts make no valid deck.
#[derive(Debug, Drop)]
pub enum EditRefusal {
    /// No element has this name.
    NoSuchName(Name),
    /// The element of this name is of another kind.
    WrongKind(Name),
    /// An element before has this name.
    DuplicateName(Name),
    /// A device's part is not defined; the name is the part's.
    NoSuchModel(Name),
    /// A capacitor or source of this name has not exactly one end at ground.
    NotGrounded(Name),
    /// Two sources drive this node.
    TwoDrivers(Name),
    /// This free node has no capacitance.
    Uncapped(Name),
    /// This free node has no initial voltage, and the deck no `uic`.
    NoInitial(Name),
    /// A value, or a number of things, is outside its limit. The name is the element's, the part's
    /// or the node's, and `.tran` and `.options` for the stop tick and the grain.
    Limit(Which, Name),
    /// Memory is wanting.
    Memory,
}

impl From<AllocError> for EditRefusal {
    ghost from_gives = { λ _ e. e ≡ refusal.Memory };

    fn from(_: AllocError) -> EditRefusal {
        EditRefusal::Memory
    }
}

impl fmt::Display for EditRefusal {
    ghost use Rattle.std.specs.Prelude.{Some};
    ghost use Rattle.deck_cards.specs.Text.{refusal_text};

    ghost output = { λ refusal. Some (refusal_text refusal) };

    fn fmt<W: fmt::Write>(&self, f: &mut fmt::Formatter<W>) -> fmt::Result {
        match self {
            EditRefusal::NoSuchName(name) => write!(f, "no such name {name}"),
            EditRefusal::WrongKind(name) => write!(f, "wrong kind {name}"),
            EditRefusal::DuplicateName(name) => write!(f, "duplicate name {name}"),
            EditRefusal::NoSuchModel(part) => write!(f, "no such model {part}"),
            EditRefusal::NotGrounded(name) => write!(f, "not grounded {name}"),
            EditRefusal::TwoDrivers(node) => write!(f, "two drivers {node}"),
            EditRefusal::Uncapped(node) => write!(f, "uncapped {node}"),
            EditRefusal::NoInitial(node) => write!(f, "no initial {node}"),
            EditRefusal::Limit(which, name) => write!(f, "limit {which} {name}"),
            EditRefusal::Memory => f.write_str("memory"),
        }
    }
}
