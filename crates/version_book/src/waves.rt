//! The waves of all nodes of a deck, from a record of its run.

ghost use Rattle.std.specs.Prelude.{◌≡◌, ◌<◌, map, length, slice_index_or, [], IfOk, IsTrue};
ghost use Rattle.semantics.specs.Deck.{nodes};
ghost use Rattle.semantics.specs.Valid.{is_valid};
ghost use Rattle.semantics.specs.Wave.{wave};
ghost use Rattle.record_waves.specs.RunRecord.{IsRunOf};

use circuit_model::{Circuit, Line, NodeNames, Waves, tick_run};
use deck_cards::Deck;
use histories::Histories;
use std::alloc::{AllocError, Global};

/// The wave of each node, in the order of the nodes.
pub(crate) fn node_waves(
    alloc: Global,
    deck: &Deck,
    circuit: &Circuit,
    names: &NodeNames,
    past: &Histories,
) -> Result<Vec<Vec<Line>>, AllocError>
    requires circuit { circuit.now ≡ record { deck = deck.now; names = names.now } }
    requires run { IsRunOf circuit.now past.now }
    ensures waves { IfOk result (λ waves.
        map (λ lines. lines.items) waves.items ≡ map (wave deck.now) (nodes deck.now)) }
    ensures valid { IsTrue (is_valid deck.now) }
{
    if deck.stop() == 0 {
        return first_waves(alloc, deck);
    }
    run_waves(alloc, deck, circuit, names, past)
}

/// Those of a deck whose stop is tick 0, by the plain run, which looks at that tick alone.
fn first_waves(alloc: Global, deck: &Deck) -> Result<Vec<Vec<Line>>, AllocError>
    ensures { IfOk result (λ waves.
        map (λ lines. lines.items) waves.items ≡ map (wave deck.now) (nodes deck.now)) }
{
    let ran = tick_run(alloc, deck)?;
    copies(alloc, &ran.waves)
}

/// Equal waves.
fn copies(alloc: Global, waves: &Waves) -> Result<Vec<Vec<Line>>, AllocError>
    ensures { IfOk result (λ copies. map (λ lines. lines.items) copies.items ≡ waves.now) }
{
    let mut copies = Vec::with_capacity(alloc, waves.len())?;
    for i in 0..waves.len() {
        copies.push(Vec::from_slice(alloc, waves.wave(i))?)?;
    }
    Ok(copies)
}

/// Those of a deck whose stop is after tick 0, from the record and the sources.
fn run_waves(
    alloc: Global,
    deck: &Deck,
    circuit: &Circuit,
    names: &NodeNames,
    past: &Histories,
) -> Result<Vec<Vec<Line>>, AllocError>
    requires circuit { circuit.now ≡ record { deck = deck.now; names = names.now } }
    requires run { IsRunOf circuit.now past.now }
    requires stop { 0 < deck.now.stop }
    ensures { IfOk result (λ waves.
        map (λ lines. lines.items) waves.items ≡ map (wave deck.now) (nodes deck.now)) }
{
    let mut waves = Vec::with_capacity(alloc, deck.node_count())?;
    for i in 0..deck.node_count() {
        waves.push(run_wave(alloc, deck, circuit, names, past, i)?)?;
    }
    Ok(waves)
}

/// That of one node.
fn run_wave(
    alloc: Global,
    deck: &Deck,
    circuit: &Circuit,
    names: &NodeNames,
    past: &Histories,
    i: usize,
) -> Result<Vec<Line>, AllocError>
    requires circuit { circuit.now ≡ record { deck = deck.now; names = names.now } }
    requires run { IsRunOf circuit.now past.now }
    requires stop { 0 < deck.now.stop }
    requires node { i < length (nodes deck.now) }
    ensures { IfOk result (λ lines.
        lines.items ≡ wave deck.now (slice_index_or (nodes deck.now) i [])) }
{
    circuit.node_count();
    match names.find(deck.node(i)) {
        Some(number) => record_waves::wave(alloc, circuit, past, number),
        None => unreachable!(),
    }
}
