ghost use Rattle.std.specs.Prelude.{◌≡◌, ◌<◌, ◌+◌, ◌+ℤ◌, ◌*ℤ◌, ◌*◌, ◌^◌, ◌≤◌, unsigned_abs, pos, [], length, map, slice_index_or, IfOk, IsTrue};
ghost use Rattle.semantics.specs.Deck.{nodes};
ghost use Rattle.semantics.specs.Run.{run};
ghost use Rattle.semantics.specs.Valid.{is_valid};
ghost use Rattle.semantics.specs.Wave.{rate};
ghost use Rattle.circuit_model.specs.Lines.{moved};

use crate::drive::driven_volts;
use deck_cards::Deck;
use semantics::Fraction;
use std::alloc::{AllocError, Global};

/// The voltage of a node of this capacitance that is charged to this voltage.
pub(crate) fn charged(capacity: u64, volts: i64) -> Fraction
    ensures { result ≡ record { num = (pos capacity) *ℤ volts; den = capacity } }
{
    Fraction {
        num: i128::from(capacity) * i128::from(volts),
        den: capacity,
    }
}

/// The voltage of a node at tick 0.
fn first_volts_of(deck: &Deck, node: usize) -> Fraction
    requires valid { IsTrue (is_valid deck.now) }
    requires node { node < length (nodes deck.now) }
    ensures { result ≡ run deck.now 0 (slice_index_or (nodes deck.now) node []) }
{
    match driven_volts(deck, node, 0) {
        Some(volts) => volts,
        None => charged(deck.capacity(node), deck.initial_volts(node)),
    }
}

/// The voltage of each node at tick 0.
pub(crate) fn first_volts(alloc: Global, deck: &Deck) -> Result<Vec<Fraction>, AllocError>
    requires { IsTrue (is_valid deck.now) }
    ensures { IfOk result (λ volts. volts.items ≡ map (run deck.now 0) (nodes deck.now)) }
{
    let count = deck.node_count();
    let mut volts = Vec::with_capacity(alloc, count)?;
    for node in 0..count {
        volts.push(first_volts_of(deck, node))?;
    }
    Ok(volts)
}

/// A voltage whose numerator has gained this.
fn moved(volts: &Fraction, gain: &i128) -> Fraction
    requires volts { unsigned_abs volts.now.num ≤ 2 * 10 ^ 25 }
    requires gain { unsigned_abs gain.now ≤ 10 ^ 15 }
    ensures { result ≡ moved volts.now gain.now }
{
    Fraction {
        num: volts.num + *gain,
        den: volts.den,
    }
}

/// The voltage of a node at the next tick, where this is what it is at a tick and what its numerator gains.
fn next_volts_of(deck: &Deck, tick: u64, node: usize, volts: &Fraction, gain: &i128) -> Fraction
    requires valid { IsTrue (is_valid deck.now) }
    requires tick { tick < deck.now.stop }
    requires node { node < length (nodes deck.now) }
    requires volts { volts.now ≡ run deck.now tick (slice_index_or (nodes deck.now) node []) }
    requires gain { gain.now ≡ rate deck.now tick (slice_index_or (nodes deck.now) node []) }
    ensures { result ≡ run deck.now (tick + 1) (slice_index_or (nodes deck.now) node []) }
{
    match driven_volts(deck, node, tick + 1) {
        Some(volts) => volts,
        None => moved(volts, gain),
    }
}

/// Takes each voltage of a tick on to the next.
pub(crate) fn advance(deck: &Deck, tick: u64, volts: &mut [Fraction], rates: &[i128])
    requires valid { IsTrue (is_valid deck.now) }
    requires tick { tick < deck.now.stop }
    requires volts { volts.old ≡ map (run deck.now tick) (nodes deck.now) }
    requires rates { rates.now ≡ map (rate deck.now tick) (nodes deck.now) }
    ensures { volts.new ≡ map (run deck.now (tick + 1)) (nodes deck.now) }
{
    for node in 0..volts.len() {
        volts[node] = next_volts_of(deck, tick, node, &volts[node], &rates[node]);
    }
}
