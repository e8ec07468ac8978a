//! The nodes that a change of a deck can put at fault.
#![tactic(auto)]

mod accepted;
mod by_edit;
mod damage;
mod found;
mod marks;
mod same;

pub use accepted::know_accepted;
pub use by_edit::damaged_by;
pub use damage::damaged;

#[cfg(test)]
mod tests;
