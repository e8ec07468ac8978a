//! Worked records: on a resistor and a capacitor, which faults a record has and which nodes are near an edit. Each
//! function is a statement, as the laws are.
#![tactic(auto)]

ghost use Rattle.std.specs.Prelude.{◌≡◌, ◌⊎◌, ℕ, ◌<◌, ◌&&◌, nat_lt, true, codes};
ghost use Rattle.std.specs.Str.{bytes_eq};
ghost use Rattle.semantics.specs.Deck.{Name};
ghost use Rattle.semantics.specs.Edit.{IsNear};
ghost use Rattle.semantics.specs.Neighbours.{is_free};
ghost use Rattle.semantics.specs.Record.{Starts, is_fault};
ghost use Rattle.worked_records.specs.Rc.{bumped, kept, rc, rc_initial, rc_resistor, rc_source};

use record_laws::laws::law_change;

/// The record in which b stays at 0 V begins right, and has the faults of b at ticks 0 to 999, and no other.
pub fn kept_record()
    ensures starts { Starts rc kept }
    ensures faults { (n : Name) (t : ℕ) → is_fault rc kept n t ≡ (bytes_eq n (codes "b") && nat_lt t 1000) }
{}

/// With another voltage at tick 500 it has the same faults before tick 499 and after tick 500.
pub fn bumped_record()
    ensures { (n : Name) (t : ℕ) → (t < 499) ⊎ (500 < t)
        → is_fault rc bumped n t ≡ (bytes_eq n (codes "b") && nat_lt t 1000) }
{
    law_change();
}

/// To set the resistor or the source is near b, and a voltage for a name that is no node is near no free node.
pub fn near_edits()
    ensures resistor { IsNear rc rc_resistor (codes "b") }
    ensures source { IsNear rc rc_source (codes "b") }
    ensures initial { (n : Name) → is_free rc_initial n ≡ true → IsNear rc rc_initial n → ⊥ }
{}
