//! A circuit by numbers of its nodes and devices, and its plain run, tick by tick, which every faster run is compared with.
#![tactic(auto)]

mod circuit;
mod device;
mod drive;
mod end;
mod ends;
mod events;
mod kept_device;
mod near;
mod network;
mod node_kind;
mod node_names;
mod source;
mod ticks;
mod volts;
mod waves;

pub use circuit::Circuit;
pub use ends::Ends;
pub use events::Events;
pub use node_kind::NodeKind;
pub use node_names::NodeNames;
pub use semantics::{Event, Line};
pub use ticks::{Ran, tick_run};
pub use waves::Waves;
