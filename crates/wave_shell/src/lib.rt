//! The program as one call: it reads a deck and a script, runs them, and writes what they print.
#![tactic(auto)]

mod job;
mod play;
mod refusal;
mod run;
mod shell;
mod status;
#[cfg(test)]
mod tests;
mod text;
mod words;

pub use shell::run_alone;
pub use status::Status;
