//! The lines that the program prints.

ghost use Rattle.std.specs.Prelude.{◌≡◌, ◌≤◌, ◌<◌, map, string_bytes, IfOk, IsTrue, All};
ghost use Rattle.semantics.specs.Deck.{nodes};
ghost use Rattle.semantics.specs.Text.{default_output};
ghost use Rattle.semantics.specs.Valid.{is_valid};
ghost use Rattle.semantics.specs.Wave.{wave};
ghost use Rattle.record_waves.specs.RunRecord.{IsRunOf};
ghost use Rattle.wave_shell.specs.Program.{deck_text};

use circuit_model::{Circuit, Waves};
use deck_cards::Deck;
use deck_reader::DeckRefusal;
use histories::Histories;
use record_waves::wave;
use std::alloc::{AllocError, Global};
use wave_text::{push_wave, version_line};

/// `deck LINE CAUSE`.
#[tactic(auto, unfolding(crate::specs::Program::deck_text))]
pub fn deck_line(alloc: Global, refusal: &DeckRefusal) -> Result<String, AllocError>
    ensures { IfOk result (λ text. string_bytes text ≡ deck_text refusal.now) }
{
    format!(in alloc; "deck {} {}\n", refusal.line, refusal.why)
}

/// What the program prints without a script: version 0, and the wave of each node.
#[tactic(auto, unfolding(semantics::specs::Text::default_output))]
pub fn default_output(alloc: Global, deck: &Deck, waves: &Waves) -> Result<String, AllocError>
    requires waves { waves.now ≡ map (wave deck.now) (nodes deck.now) }
    requires dens { All (λ lines. All (λ l. 1 ≤ l.den) lines) waves.now }
    ensures { IfOk result (λ text. string_bytes text ≡ default_output deck.now) }
{
    let mut text = version_line(alloc, 0)?;
    for node in 0..deck.node_count() {
        push_wave(alloc, &mut text, deck.node(node), waves.wave(node))?;
    }
    Ok(text)
}

/// The same from a record of the run, wave after wave.
#[tactic(auto, unfolding(semantics::specs::Text::default_output))]
pub fn record_output(
    alloc: Global,
    deck: &Deck,
    circuit: &Circuit,
    past: &Histories,
) -> Result<String, AllocError>
    requires circuit { circuit.now ≡ record { deck = deck.now; names = nodes deck.now } }
    requires run { IsRunOf circuit.now past.now }
    requires stop { 0 < deck.now.stop }
    requires valid { IsTrue (is_valid deck.now) }
    ensures { IfOk result (λ text. string_bytes text ≡ default_output deck.now) }
{
    let mut text = version_line(alloc, 0)?;
    for node in 0..circuit.node_count() {
        let lines = wave(alloc, circuit, past, node)?;
        push_wave(alloc, &mut text, deck.node(node as usize), &lines)?;
    }
    Ok(text)
}
