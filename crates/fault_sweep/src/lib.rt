//! The faults of a node in a record of a circuit's voltages: the ticks from which the record does not go on as the
//! circuit does. And how long a device stays in its cells there.
#![tactic(auto)]

mod cell_stay;
mod cells;
mod course;
mod hold;
mod inflow;
mod stay;
mod sweep;

pub use cell_stay::CellStay;
pub use cells::cells_from;
pub use record_laws::laws;
pub use sweep::faults;
