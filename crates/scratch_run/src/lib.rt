//! The run of a whole circuit, from event to event.
#![tactic(auto)]

mod from_scratch;
mod splices;
mod starts;

pub use from_scratch::scratch;
