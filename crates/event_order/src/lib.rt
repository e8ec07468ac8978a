//! The queue of the ticks at which devices may change, and lists of such ticks merged in order.
#![tactic(auto)]

mod buckets;
mod far;
mod marks;
mod near;
mod pairs;
mod queue;
mod spot;
mod table;

pub use pairs::merge;
pub use queue::Queue;

#[cfg(test)]
mod tests;
