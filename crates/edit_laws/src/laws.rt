//! The laws of accepted edits. Each function is a statement: its body does nothing, and its
//! contract is the law.

ghost use Rattle.std.specs.Prelude.{◌≡◌, ◌≢◌, ◌⊎◌, ◌↔◌, ℤ, true, ◌&&◌, if◌then◌else◌};
ghost use Rattle.std.specs.Prelude.{List, [], ◌∷◌, ◌++◌, Some, is_none};
ghost use Rattle.std.specs.Str.{bytes_eq};
ghost use Rattle.semantics.specs.declared.element.Element.{Element};
ghost use Rattle.semantics.specs.Deck.{Name, DeckValue, initial_of};
ghost use Rattle.semantics.specs.Edit.{IsChanged, IsEdit, IsOnlyIn};
ghost use Rattle.semantics.specs.Valid.{is_valid};
ghost use Rattle.record_laws.specs.Laws.{IsValidEdit};
ghost use Rattle.deck_cards.specs.declared.edit.Edit.{Edit};
ghost use Rattle.deck_cards.specs.declared.edit.Edit.TheVariants.{SetIc};
ghost use Rattle.deck_cards.specs.Edits.{accepts, after, edit_cause, edited};
ghost use Rattle.edit_laws.specs.Accepted.{AreAccepted, IsAccepted, KeepsFrame};
ghost use Rattle.edit_laws.specs.Changed.{Comes, Gives, Goes, KeepsEnds};
ghost use Rattle.edit_laws.specs.Changed.{element_after, element_before};

/// An edit that a valid deck accepts is one edit in the sense of the laws of records, between two
/// valid decks.
pub fn law_edited()
    ensures edit { (d : DeckValue) (e : Edit) → IsAccepted d e → IsEdit d (edited d e) }
    ensures valid { (d : DeckValue) (e : Edit) → IsAccepted d e → IsValidEdit d (edited d e) }
{}

/// Edits that a valid deck accepts in turn give a valid deck, and one edit more is accepted where
/// the deck after the others accepts it. Whatever the edits, title, stop, `uic`, grain, models and
/// tables stay, and one edit more is made of the deck after the others.
pub fn law_after()
    ensures valid { (d : DeckValue) (es : List Edit)
        → AreAccepted d es → is_valid (after d es) ≡ true }
    ensures further { (d : DeckValue) (es : List Edit) (e : Edit)
        → AreAccepted d (es ++ e ∷ []) ↔ (AreAccepted d es × IsAccepted (after d es) e) }
    ensures frame { (d : DeckValue) (es : List Edit) → KeepsFrame d (after d es) }
    ensures more { (d : DeckValue) (es : List Edit) (e : Edit)
        → after d (es ++ e ∷ []) ≡ edited (after d es) e }
    ensures accepts { (d : DeckValue) (es : List Edit) (e : Edit)
        → accepts d (es ++ e ∷ []) ≡ (accepts d es && is_none (edit_cause (after d es) e)) }
{}

/// What an accepted edit changes, told by the edit: the old deck alone has the element that is
/// taken out or set to another one, the new deck alone the one that is put in or that this one was
/// set to, and no other element is changed. An element that is set keeps its name and its ends. An
/// initial voltage is another one exactly where the edit gives another one.
pub fn law_changed()
    ensures goes { (d : DeckValue) (e : Edit) (x : Element) → IsAccepted d e
        → IsOnlyIn d (edited d e) x ↔ Goes d e x }
    ensures comes { (d : DeckValue) (e : Edit) (x : Element) → IsAccepted d e
        → IsOnlyIn (edited d e) d x ↔ Comes d e x }
    ensures changed { (d : DeckValue) (e : Edit) (x : Element) → IsAccepted d e
        → IsChanged d (edited d e) x ↔ (Goes d e x ⊎ Comes d e x) }
    ensures set { (d : DeckValue) (e : Edit) (x y : Element)
        → element_before d e ≡ Some x → element_after d e ≡ Some y → KeepsEnds x y }
    ensures given { (d : DeckValue) (node n : Name) (volts : ℤ)
        → initial_of (edited d (SetIc node volts)) n
        ≡ (if bytes_eq n node then volts else initial_of d n) }
    ensures initial { (d : DeckValue) (e : Edit) (n : Name)
        → (initial_of d n ≢ initial_of (edited d e) n) ↔ Gives d e n }
{}

/// What is changed between two decks is changed on the way through any third: from the first to the
/// third, or from there to the second. So what several edits change each of them tells in turn.
pub fn law_through()
    ensures elements { (old mid new : DeckValue) (x : Element)
        → IsChanged old new x → IsChanged old mid x ⊎ IsChanged mid new x }
    ensures initial { (old mid new : DeckValue) (n : Name)
        → initial_of old n ≢ initial_of new n
        → (initial_of old n ≢ initial_of mid n) ⊎ (initial_of mid n ≢ initial_of new n) }
{}
