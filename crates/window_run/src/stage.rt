ghost use Rattle.std.specs.Prelude.{◌≡◌, ◌⊎◌, ◌≤◌, ◌<◌, ◌+◌, ◌^◌, ℕ, true, length, map, All, IfOk, OnOk};
ghost use Rattle.window_run.specs.Net.{HasEventTicks, IsNet, IsRun};
ghost use Rattle.window_run.specs.Pieces.{pairs, AreTurning, Counts, OthersKept, PiecesGo, PiecesKept};
ghost use Rattle.window_run.specs.Stage.{Arrives, AreLater, IsFrontier, IsSteady, IsUnderWay, Waits};
ghost use Rattle.window_run.specs.Circuit.{net_of};

use crate::bend::bend;
use crate::device::earlier;
use crate::flow::enter;
use crate::look::look;
use crate::turn::turn;
use crate::wait::take_due;
use crate::wiring::{device_count, node_count};
use circuit_model::Circuit;
use event_order::Queue;
use node_ramps::{Ramp, Steps};
use semantics::Line;
use std::alloc::AllocError;
use std::sync::ledger::Ledger;

/// What the run of a window knows at a tick.
#[derive(Drop)]
pub(crate) struct Stage {
    /// The line of each node.
    pub(crate) lines: Vec<Line>,
    /// The cells of each device.
    pub(crate) cells: Vec<(u32, u32)>,
    /// What flows through each device.
    pub(crate) amps: Vec<i64>,
    /// What flows into each node.
    pub(crate) rates: Vec<i128>,
    /// When each device comes into other cells.
    pub(crate) dues: Queue,
    /// When the line of each driven node's source turns.
    pub(crate) bends: Queue,
    /// The devices that are due at a tick, and the nodes that bend then.
    pub(crate) due: Vec<u32>,
    pub(crate) bent: Vec<u32>,
    /// The nodes whose rates may have changed at a tick, and the devices to be looked at then.
    pub(crate) turned: Vec<u32>,
    pub(crate) looks: Vec<u32>,
}

impl Stage {
    /// Goes on to this tick, before which no device is due and no node bends: all cells of the tick are found before
    /// any rate, the rates before the lines, and the lines before it is looked when the devices are due.
    fn tick<L: Ledger>(
        &mut self,
        circuit: &Circuit,
        pieces: &mut [Vec<Ramp>],
        steps: &mut Steps<L>,
        from: u64,
        now: u64,
        end: u64,
    ) -> Result<(), AllocError>
        requires net { IsNet (net_of circuit.now) }
        requires arrives { (before : ℕ) × (before < now) × Arrives (net_of circuit.now) self.old self.old.due.items self.old.bent.items before now end }
        requires order { (now < end) × (end ≤ (net_of circuit.now).stop) }
        requires due { All (λ k. k < (net_of circuit.now).devices) self.old.due.items }
        requires bent { All (λ i. (i < (net_of circuit.now).nodes) × ((net_of circuit.now).driven i ≡ true)) self.old.bent.items }
        requires count { length pieces.old ≡ (net_of circuit.now).nodes }
        requires pieces { PiecesGo (net_of circuit.now) from (map (λ v. v.items) pieces.old) self.old.lines.items }
        ensures steady { OnOk result (IsSteady (net_of circuit.now) self.new now end) }
        ensures pieces { OnOk result (PiecesGo (net_of circuit.now) from (map (λ v. v.items) pieces.new) self.new.lines.items) }
        ensures kept { OnOk result (PiecesKept (net_of circuit.now) (map (λ v. v.items) pieces.old) (map (λ v. v.items) pieces.new) now) }
        ensures others { OnOk result (OthersKept (net_of circuit.now)
            (map (λ v. v.items) pieces.old) (map (λ v. v.items) pieces.new)) }
        ensures steps { OnOk result (Counts steps.old steps.new (map (λ v. v.items) pieces.old) (map (λ v. v.items) pieces.new)) }
    {
        self.turned.clear();
        self.looks.clear();
        self.looks.extend_from_slice(&self.due)?;
        let Stage {
            lines,
            cells,
            amps,
            rates,
            dues,
            bends,
            bent,
            turned,
            looks,
            ..
        } = self;
        bend(circuit, bent, lines, bends, looks, now, end)?;
        enter(circuit, looks, lines, cells, amps, rates, turned, now, end)?;
        turn(
            circuit, turned, rates, lines, pieces, looks, steps, from, now, end,
        )?;
        look(circuit, looks, lines, cells, dues, now, end)?;
        Ok(())
    }

    /// Goes on to the next event tick.
    fn step<L: Ledger>(
        &mut self,
        circuit: &Circuit,
        pieces: &mut [Vec<Ramp>],
        steps: &mut Steps<L>,
        from: u64,
        now: u64,
        end: u64,
    ) -> Result<(), AllocError>
        requires net { IsNet (net_of circuit.now) }
        requires steady { (before : ℕ) × (before < now) × IsSteady (net_of circuit.now) self.old before end }
        requires dues { IsFrontier self.old.dues now }
        requires bends { IsFrontier self.old.bends now }
        requires order { (now < end) × (end ≤ (net_of circuit.now).stop) }
        requires count { length pieces.old ≡ (net_of circuit.now).nodes }
        requires pieces { PiecesGo (net_of circuit.now) from (map (λ v. v.items) pieces.old) self.old.lines.items }
        ensures steady { OnOk result (IsSteady (net_of circuit.now) self.new now end) }
        ensures pieces { OnOk result (PiecesGo (net_of circuit.now) from (map (λ v. v.items) pieces.new) self.new.lines.items) }
        ensures kept { OnOk result (PiecesKept (net_of circuit.now) (map (λ v. v.items) pieces.old) (map (λ v. v.items) pieces.new) now) }
        ensures others { OnOk result (OthersKept (net_of circuit.now)
            (map (λ v. v.items) pieces.old) (map (λ v. v.items) pieces.new)) }
        ensures steps { OnOk result (Counts steps.old steps.new (map (λ v. v.items) pieces.old) (map (λ v. v.items) pieces.new)) }
    {
        let devices = device_count(circuit) as usize;
        take_due(&mut self.dues, devices, now, &mut self.due)?;
        let nodes = node_count(circuit) as usize;
        take_due(&mut self.bends, nodes, now, &mut self.bent)?;
        self.tick(circuit, pieces, steps, from, now, end)?;
        Ok(())
    }

    /// The next event tick, and the end where there is none before it.
    fn next_tick(&self, end: u64) -> u64
        ensures dues { IsFrontier self.now.dues result }
        ensures bends { IsFrontier self.now.bends result }
        ensures by_end { result ≤ end }
        ensures waits { result < end → Waits self.now.dues result ⊎ Waits self.now.bends result }
    {
        match earlier(self.dues.first(), self.bends.first()) {
            Some(tick) => tick.min(end),
            None => end,
        }
    }

    /// Goes on to the end, or to the first event tick past so many, the beginning among them, and says where it stopped.
    pub(crate) fn run<L: Ledger>(
        &mut self,
        circuit: &Circuit,
        pieces: &mut [Vec<Ramp>],
        steps: &mut Steps<L>,
        from: u64,
        end: u64,
        budget: u64,
    ) -> Result<u64, AllocError>
        requires net { IsNet (net_of circuit.now) }
        requires steady { IsSteady (net_of circuit.now) self.old from end }
        requires order { (from < end) × (end ≤ (net_of circuit.now).stop) }
        requires budget { 1 ≤ budget }
        requires count { length pieces.old ≡ (net_of circuit.now).nodes }
        requires pieces { PiecesGo (net_of circuit.now) from (map (λ v. v.items) pieces.old) self.old.lines.items }
        ensures run { IfOk result (λ until. IsRun (net_of circuit.now) (pairs (map (λ v. v.items) pieces.new)) from until) }
        ensures kept { OnOk result (PiecesKept (net_of circuit.now) (map (λ v. v.items) pieces.old) (map (λ v. v.items) pieces.new) from) }
        ensures others { OnOk result (OthersKept (net_of circuit.now)
            (map (λ v. v.items) pieces.old) (map (λ v. v.items) pieces.new)) }
        ensures steps { OnOk result (Counts steps.old steps.new (map (λ v. v.items) pieces.old) (map (λ v. v.items) pieces.new)) }
        ensures until { IfOk result (λ until. (from < until) × (until ≤ end)) }
        ensures turning { IfOk result (λ until.
            AreTurning (net_of circuit.now) from until (map (λ v. v.items) pieces.new)) }
        ensures budget { IfOk result (λ until. until < end → HasEventTicks (net_of circuit.now) (pairs (map (λ v. v.items) pieces.new)) from budget until) }
    {
        let mut taken = 1;
        let mut next = self.next_tick(end);
        while next < end && taken < budget {
            self.step(circuit, pieces, steps, from, next, end)?;
            taken += 1;
            next = self.next_tick(end);
        }
        Ok(next)
    }
}
