ghost use Rattle.std.specs.Prelude.{◌≡◌, ◌≤◌, ◌<◌, ◌+◌, ℕ, [], length, map, slice_index_or, IfOk, OnOk, All};
ghost use Rattle.semantics.specs.Deck.{nodes};
ghost use Rattle.semantics.specs.Event.{events};
ghost use Rattle.semantics.specs.Run.{run};
ghost use Rattle.semantics.specs.Wave.{wave};
ghost use Rattle.circuit_model.specs.Carried.{HasVoltage};
ghost use Rattle.circuit_model.specs.Lines.{continued, line_of};

use crate::events::Events;
use crate::kept_device::plain_devices;
use crate::network::Network;
use crate::volts::{advance, first_volts};
use crate::waves::Waves;
use deck_cards::Deck;
use semantics::{Fraction, Line};
use std::alloc::{AllocError, Global};

/// Takes the line of each node at a tick into its wave.
fn add_lines(
    waves: &mut Waves,
    tick: u64,
    volts: &[Fraction],
    rates: &[i128],
) -> Result<(), AllocError>
    requires volts { length volts.now ≡ length waves.old }
    requires rates { length rates.now ≡ length waves.old }
    ensures count { OnOk result (length waves.new ≡ length waves.old) }
    ensures lines { OnOk result ((i : ℕ) → i < length waves.old → slice_index_or waves.new i [] ≡ continued (slice_index_or waves.old i []) (line_of tick volts.now rates.now i)) }
{
    for node in 0..waves.len() {
        let Fraction { num, den } = volts[node];
        let line = Line {
            start: tick,
            num,
            rate: rates[node],
            den,
        };
        waves.add(node, line)?;
    }
    Ok(())
}

/// The plain run of a deck at a tick.
#[derive(Drop)]
struct Ticks {
    /// The voltage of each node.
    volts: Vec<Fraction>,
    /// The cells of each device.
    cells: Vec<(u32, u32)>,
    /// What the numerator of each node's voltage gains from this tick to the next.
    rates: Vec<i128>,
    waves: Waves,
    events: Events,
}

impl Ticks {
    ghost use Rattle.circuit_model.specs.State.{IsAt};

    /// The run at tick 0.
    fn start(alloc: Global, network: &Network) -> Result<Ticks, AllocError>
        ensures { IfOk result (λ ticks. IsAt network.now 0 ticks) }
    {
        let volts = first_volts(alloc, network.deck())?;
        let cells = network.first_cells(alloc, &volts)?;
        let mut rates = vec![in alloc; 0; volts.len()]?;
        network.find_rates(0, &cells, &mut rates);
        let mut waves = Waves::empty(alloc, volts.len())?;
        add_lines(&mut waves, 0, &volts, &rates)?;
        Ok(Ticks {
            volts,
            cells,
            rates,
            waves,
            events: Events::new(alloc),
        })
    }

    /// Goes on from this tick to the next.
    fn step(&mut self, network: &Network, tick: u64) -> Result<(), AllocError>
        requires before { tick < network.now.stop }
        requires at { IsAt network.now tick self.old }
        ensures { OnOk result (IsAt network.now (tick + 1) self.new) }
    {
        advance(network.deck(), tick, &mut self.volts, &self.rates);
        network.enter_cells(tick, &self.volts, &mut self.cells, &mut self.events)?;
        let next = tick + 1;
        network.find_rates(next, &self.cells, &mut self.rates);
        if next < network.deck().stop() {
            add_lines(&mut self.waves, next, &self.volts, &self.rates)?;
        }
        Ok(())
    }
}

/// What a run gives: the wave of each node, in the order of the nodes, and the events.
#[derive(Drop)]
pub struct Ran {
    pub waves: Waves,
    pub events: Events,
}

/// Runs a deck tick by tick. Each line of its waves has a denominator of at least 1, and a wave followed to a tick up to
/// the stop has the voltage that its node has there in the run. It fails only for want of memory.
pub fn tick_run(alloc: Global, deck: &Deck) -> Result<Ran, AllocError>
    ensures waves { IfOk result (λ ran. ran.waves ≡ map (wave deck.now) (nodes deck.now)) }
    ensures voltages { IfOk result (λ ran. (i tick : ℕ) → i < length (nodes deck.now) → tick ≤ deck.now.stop
        → HasVoltage (slice_index_or ran.waves i []) tick (run deck.now tick (slice_index_or (nodes deck.now) i []))) }
    ensures events { IfOk result (λ ran. ran.events ≡ events deck.now) }
    ensures denominators { IfOk result (λ ran. All (λ lines. All (λ l. 1 ≤ l.den) lines) ran.waves) }
{
    let stop = deck.stop();
    let kept = plain_devices(alloc, deck)?;
    let network = Network::of(alloc, deck, &kept)?;
    let mut ticks = Ticks::start(alloc, &network)?;
    for tick in 0..stop {
        ticks.step(&network, tick)?;
    }
    Ok(Ran {
        waves: ticks.waves,
        events: ticks.events,
    })
}
