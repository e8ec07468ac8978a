//! A board that repairs a record: the laws of its steps.
#![tactic(auto)]

pub mod laws;
