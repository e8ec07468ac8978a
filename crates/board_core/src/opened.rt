//! Versions from a run of their own.

ghost use Rattle.std.specs.Prelude.{◌≡◌, ◌<◌, true, IfOk, IsTrue};
ghost use Rattle.semantics.specs.Valid.{is_valid};
ghost use Rattle.deck_cards.specs.Edits.{accepts, after};

use circuit_model::{Circuit, NodeNames};
use deck_cards::{Deck, Edits};
use node_ramps::Steps;
use scratch_run::scratch;
use std::alloc::{AllocError, Global};
use std::sync::Arc;
use std::sync::ledger::{Blank, Ledger};
use version_book::Version;

/// The version of a base deck, its accepted edits and the deck after them, from a run of that deck; and how many ramps the
/// run made.
pub(crate) fn version_of<L: Ledger>(
    alloc: Global,
    base: Deck,
    edits: Edits,
    deck: Deck,
    blank: Blank,
) -> Result<(Version, u64), AllocError>
    requires accepted { accepts base edits ≡ true }
    requires after { deck ≡ after base edits }
    requires name { blank.name ≡ L.name }
    requires parts { blank.parts ≡ L.parts }
    requires some { 0 < blank.parts }
    ensures { IfOk result (λ made. made.0 ≡ record { base = base; edits = edits; deck = deck }) }
{
    let (book, share) = blank.open::<L>();
    let mut steps = Steps::of(book, share);
    known(&deck);
    let mut names = NodeNames::new();
    let circuit = Circuit::of(alloc, &deck, &mut names)?;
    let circuit = Arc::new(alloc, circuit)?;
    let past = scratch(alloc, &circuit, &mut steps)?;
    let version = Version::of(alloc, base, edits, deck, &circuit, &names, &past)?;
    Ok((version, steps.made()))
}

/// What a deck is by its type.
fn known(deck: &Deck)
    ensures { IsTrue (is_valid deck.now) }
{
    deck.stop();
}
