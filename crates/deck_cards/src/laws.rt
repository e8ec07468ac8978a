//! The laws of edits. Each function is a statement alone: its body does nothing.

ghost use Rattle.std.specs.Prelude.{◌≡◌, ℕ, ℤ, List, true, None, Some, option_and_then};
ghost use Rattle.std.specs.Option.{option_or};
ghost use Rattle.semantics.specs.Deck.{DeckValue};
ghost use Rattle.semantics.specs.Valid.{is_valid};
ghost use Rattle.deck_cards.specs.AtNode.{capacitor_of, node_cause};
ghost use Rattle.deck_cards.specs.Edits.{edit_cause, edit_limit, edit_rises, edited, named, set_cause, with_ohms, with_wave, with_part};
ghost use Rattle.deck_cards.specs.declared.edit.Edit.{Edit};
ghost use Rattle.deck_cards.specs.declared.edit.Edit.TheVariants.{SetR, SetC, SetWave, SetModel, SetIc};

/// An accepted edit of a valid deck gives a valid deck.
pub fn law_valid()
    ensures { (d : DeckValue) (e : Edit) → is_valid d ≡ true → edit_rises e ≡ true → edit_cause d e ≡ None
        → is_valid (edited d e) ≡ true }
{}

/// A valid deck refuses an edit of a value for what it touches alone: the element with its part, the
/// value, and of a capacitor the sum of capacitances at its node. No other element and no other node
/// needs to be tested again.
pub fn law_touched()
    ensures ohms { (d : DeckValue) (name : List ℕ) (ohms : ℤ) → is_valid d ≡ true
        → edit_cause d (SetR name ohms) ≡ option_or (set_cause d name (with_ohms ohms)) (edit_limit (SetR name ohms)) }
    ensures farads { (d : DeckValue) (name node : List ℕ) (was farads : ℤ) → is_valid d ≡ true
        → option_and_then capacitor_of (named name d.elements) ≡ Some (node, was)
        → edit_cause d (SetC name farads)
        ≡ node_cause (edited d (SetC name farads)) node (edit_limit (SetC name farads)) }
    ensures wave { (d : DeckValue) (name : List ℕ) (wave : List (ℕ × ℤ)) → is_valid d ≡ true
        → edit_cause d (SetWave name wave) ≡ option_or (set_cause d name (with_wave wave)) (edit_limit (SetWave name wave)) }
    ensures part { (d : DeckValue) (name part : List ℕ) → is_valid d ≡ true
        → edit_cause d (SetModel name part) ≡ set_cause d name (with_part part) }
    ensures initial { (d : DeckValue) (node : List ℕ) (volts : ℤ) → is_valid d ≡ true
        → edit_cause d (SetIc node volts) ≡ edit_limit (SetIc node volts) }
{}
