//! What the wave through the pairs of a free node is. Each function is a statement: its body does nothing, and its
//! contract is the law.

ghost use Rattle.std.specs.Prelude.{◌≡◌, ℕ, ◌<◌, true, false};
ghost use Rattle.semantics.specs.Deck.{Name, DeckValue};
ghost use Rattle.semantics.specs.Neighbours.{is_free};
ghost use Rattle.semantics.specs.Record.{Record, is_fault};
ghost use Rattle.semantics.specs.RecordWave.{record_wave};
ghost use Rattle.semantics.specs.Valid.{is_valid};
ghost use Rattle.histories.specs.Pairs.{IsSmooth, wave_of};

/// The pairs of a free node at which a record has no fault can be made a wave, and where the stop is later than tick 0
/// it is the node's wave in the record.
pub fn law_wave()
    ensures smooth { (d : DeckValue) (w : Record) (n : Name)
        → is_valid d ≡ true → is_free d n ≡ true → ((t : ℕ) → is_fault d w n t ≡ false)
        → IsSmooth (w n) d.stop }
    ensures wave { (d : DeckValue) (w : Record) (n : Name)
        → is_valid d ≡ true → is_free d n ≡ true → ((t : ℕ) → is_fault d w n t ≡ false)
        → 0 < d.stop → wave_of (w n) d.stop ≡ record_wave d w n }
{}
