//! The next tick at which the voltage between two nodes comes into another cell. No call here takes memory.
#![tactic(auto)]

mod gap;
mod search;

pub use search::{cell_now, least_cross, next_cross};

#[cfg(test)]
mod tests;
