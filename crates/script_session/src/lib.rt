//! A script as it is played on a board: what each of its lines prints.
#![tactic(auto)]

pub mod laws;
mod pins;
mod session;

pub use session::Session;
