//! Sets of ticks: those at which a node is still to be looked at.
#![tactic(auto)]

mod span;
mod spans;

pub use spans::Spans;

#[cfg(test)]
mod tests;
