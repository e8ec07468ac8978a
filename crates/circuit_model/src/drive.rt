//! What the sources of a deck give to its nodes at a tick.

ghost use Rattle.std.specs.Prelude.{◌≡◌, ◌<◌, [], length, slice_index_or, None, IfNone, IfSome, IsTrue};
ghost use Rattle.semantics.specs.Deck.{driver, nodes};
ghost use Rattle.semantics.specs.Run.{run};
ghost use Rattle.semantics.specs.Valid.{is_valid};
ghost use Rattle.semantics.specs.Wave.{rate};

use crate::source::{turned_pair, turned_slope};
use deck_cards::Deck;
use semantics::Fraction;

/// The voltage at a tick of a node that a source drives; `None` where none does.
pub(crate) fn driven_volts(deck: &Deck, node: usize, tick: u64) -> Option<Fraction>
    requires valid { IsTrue (is_valid deck.now) }
    requires node { node < length (nodes deck.now) }
    ensures driven { IfSome result (λ volts. volts ≡ run deck.now tick (slice_index_or (nodes deck.now) node [])) }
    ensures free { IfNone result (driver deck.now (slice_index_or (nodes deck.now) node []) ≡ None) }
{
    let (wave, second) = deck.drive(node)?;
    Some(turned_pair(wave, second, tick))
}

/// What the numerator of that voltage gains from the tick to the next; `None` where no source drives the node.
pub(crate) fn driven_rate(deck: &Deck, node: usize, tick: u64) -> Option<i128>
    requires valid { IsTrue (is_valid deck.now) }
    requires node { node < length (nodes deck.now) }
    ensures driven { IfSome result (λ gain. gain ≡ rate deck.now tick (slice_index_or (nodes deck.now) node [])) }
    ensures free { IfNone result (driver deck.now (slice_index_or (nodes deck.now) node []) ≡ None) }
{
    let (wave, second) = deck.drive(node)?;
    Some(turned_slope(wave, second, tick))
}
