//! The straight lines that a node's voltage follows, and the count of those that a run makes.
#![tactic(auto)]

mod ramp;
mod steps;

pub use ramp::Ramp;
pub use semantics::Line;
pub use steps::Steps;

#[cfg(test)]
mod tests;
