//! What says of a device how much current flows at which voltages: grids of thresholds, tables of currents, and the
//! resistor. Voltages are in µV, currents in pA, resistances in mΩ. No call here takes memory.
//!
//! A grid is seen as the list of its thresholds, and a table as its two grids and the list of its currents. What a search
//! for the next change of a cell needs to know of cells is in `proofs/Laws.antt`.
#![tactic(auto)]

mod floor;
mod grid;
mod level;
mod ohmic;
mod ratio;
mod refusal;
mod table;

pub use grid::Grid;
pub use ohmic::resistor;
pub use refusal::TableRefusal;
pub use semantics::Channel;
pub use table::Table;

#[cfg(test)]
mod tests;
