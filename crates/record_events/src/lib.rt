//! The events of a record of a circuit's voltages: which device comes into other cells at which tick.
#![tactic(auto)]

mod changes;
mod event_list;

pub use event_list::events;
