//! A board: a deck with the edits that it accepted, and the version that a viewer may see.
#![tactic(auto)]

mod board;
mod opened;

pub use board::Board;
