use circuit_model::Circuit;
use histories::Histories;
use std::sync::Arc;

/// What a window is to run: some nodes of a circuit, from the voltages that its record has of them at a tick.
#[derive(Drop)]
pub struct Task {
    /// The circuit.
    pub circuit: Arc<Circuit>,
    /// Its record.
    pub past: Histories,
    /// The numbers of the nodes.
    pub nodes: Vec<u32>,
    /// The first tick.
    pub from: u64,
    /// The last tick, where the window goes so far.
    pub end: u64,
    /// How many event ticks it takes at most, the first tick among them.
    pub budget: u64,
}
