//! Versions: a deck after the edits that were accepted, with the waves and events of its run.
#![tactic(auto)]

mod numerators;
mod version;
mod waves;

pub use circuit_model::{Event, Line};
pub use version::Version;
