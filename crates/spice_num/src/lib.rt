//! The numbers of SPICE decks, read into whole numbers of small units and written back.
//!
//! A number is a sign, digits with a point, an exponent and a tail, as `-0.5e-3kV`. What it says in
//! a unit is exact: the fraction that it writes is rounded once, halves away from zero. What is
//! written for a number reads back as that number, in every unit.
#![tactic(auto)]

pub use reading::read_number;
pub use refusals::NumRefusal;
pub use units::Unit;
pub use writing::{write_number, written_reads_back};

mod reading;
mod refusals;
#[cfg(test)]
mod tests;
mod units;
mod writing;
