//! Records of a circuit's voltages, right or wrong: the laws of their faults.
#![tactic(auto)]

pub mod laws;
