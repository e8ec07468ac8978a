//! The record of a circuit's free nodes: a voltage of each at each tick, kept as lines one after another, and the pieces
//! that a run writes into it.
#![tactic(auto)]

mod histories;
pub mod laws;
mod piece;
mod track;

pub use histories::Histories;
pub use node_ramps::{Line, Ramp};
pub use piece::{Piece, PieceRefusal};

#[cfg(test)]
mod tests;
