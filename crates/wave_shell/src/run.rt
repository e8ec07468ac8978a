//! The run of a deck as text.

ghost use Rattle.std.specs.Prelude.{◌≡◌, ◌<◌, string_bytes, IfOk, IsTrue};
ghost use Rattle.semantics.specs.Deck.{nodes};
ghost use Rattle.semantics.specs.Text.{default_output};
ghost use Rattle.semantics.specs.Valid.{is_valid};

use crate::text::{default_output, record_output};
use circuit_model::{Circuit, NodeNames, tick_run};
use deck_cards::Deck;
use node_ramps::Steps;
use scratch_run::scratch;
use std::alloc::{AllocError, Global};
use std::marker::Brand;
use std::sync::Arc;
use std::sync::ledger::{Blank, Ledger};

/// The waves of a deck. They come from a run by events; where the stop is tick 0 there is none to come, and the plain run
/// tells the one line of each node.
pub fn run_text(alloc: Global, deck: &Deck) -> Result<String, AllocError>
    ensures { IfOk result (λ text. string_bytes text ≡ default_output deck.now) }
{
    if deck.stop() == 0 {
        return plain_text(alloc, deck);
    }
    let mut names = NodeNames::new();
    let circuit = Circuit::of(alloc, deck, &mut names)?;
    event_text::<Brand>(alloc, deck, circuit, Blank::new(1))
}

/// The waves by the plain run. Its events are dropped before the text is made.
fn plain_text(alloc: Global, deck: &Deck) -> Result<String, AllocError>
    ensures { IfOk result (λ text. string_bytes text ≡ default_output deck.now) }
{
    let waves = tick_run(alloc, deck)?.waves;
    default_output(alloc, deck, &waves)
}

/// The waves by a run from event to event.
fn event_text<L: Ledger>(
    alloc: Global,
    deck: &Deck,
    circuit: Circuit,
    blank: Blank,
) -> Result<String, AllocError>
    requires circuit { circuit ≡ record { deck = deck.now; names = nodes deck.now } }
    requires stop { 0 < deck.now.stop }
    requires valid { IsTrue (is_valid deck.now) }
    requires name { blank.name ≡ L.name }
    requires parts { blank.parts ≡ L.parts }
    requires some { 0 < blank.parts }
    ensures { IfOk result (λ text. string_bytes text ≡ default_output deck.now) }
{
    let (book, share) = blank.open::<L>();
    let mut steps = Steps::of(book, share);
    let circuit = Arc::new(alloc, circuit)?;
    let past = scratch(alloc, &circuit, &mut steps)?;
    record_output(alloc, deck, &circuit, &past)
}
