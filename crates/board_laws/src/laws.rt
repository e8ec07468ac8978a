//! The laws of a board that repairs its record after edits. Each function is a statement: its body does nothing, and
//! its contract is the law.

ghost use Rattle.std.specs.Prelude.{◌≡◌, ℕ, true};
ghost use Rattle.semantics.specs.Deck.{Name, DeckValue};
ghost use Rattle.semantics.specs.Neighbours.{is_free};
ghost use Rattle.semantics.specs.Valid.{is_valid};
ghost use Rattle.deck_cards.specs.declared.edit.Edit.{Edit};
ghost use Rattle.deck_cards.specs.declared.edit_refusal.EditRefusal.{EditRefusal};
ghost use Rattle.board_laws.specs.Board.{Begins, BoardValue, IsRepaired, IsSettled, Sound};
ghost use Rattle.board_laws.specs.Regions.{OneRegion, Regroups, SameOut};
ghost use Rattle.board_laws.specs.Steps.{Commits, Edits, GivesUp, Refuses, Takes};
ghost use Rattle.board_laws.specs.Windows.{WindowValue, is_swept};

/// Each step keeps a board sound: an edit that is accepted or refused, a region that is lent, and one that comes back,
/// with a window of any bounded voltages or without one.
pub fn law_steps()
    ensures edits { (e : Edit) (b c : BoardValue) → Edits e b c → Sound b → Sound c }
    ensures refuses { (e : Edit) (cause : EditRefusal) (b c : BoardValue)
        → Refuses e cause b c → Sound b → Sound c }
    ensures takes { (r : ℕ) (b c : BoardValue) → Takes r b c → Sound b → Sound c }
    ensures commits { (r : ℕ) (w : WindowValue) (b c : BoardValue)
        → Commits r w b c → Sound b → Sound c }
    ensures gives_up { (r : ℕ) (b c : BoardValue) → GivesUp r b c → Sound b → Sound c }
{}

/// The deck of a sound board is valid, and where nothing is pending its record is the run of that deck.
pub fn law_settled()
    ensures valid { (b : BoardValue) → Sound b → is_valid b.deck ≡ true }
    ensures run { (b : BoardValue) → Sound b → IsSettled b → IsRepaired b }
{}

/// The board of a valid deck without edits is sound, where its record is the run and nothing is pending.
pub fn law_fresh()
    ensures { (d : DeckValue) (b : BoardValue) → is_valid d ≡ true → Begins d b → Sound b }
{}

/// One region that has every name meets what an edit asks of regions, and a commit of it sweeps all free nodes.
pub fn law_one_region()
    ensures regroups { (b c : BoardValue)
        → OneRegion b → OneRegion c → SameOut b c → Regroups b c }
    ensures swept { (b : BoardValue) (w : WindowValue) (n : Name)
        → OneRegion b → is_swept b 0 w n ≡ is_free b.deck n }
{}
