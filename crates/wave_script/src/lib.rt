//! Reads the text of a script: the commands that its lines say, or its first fault.
#![tactic(auto)]

mod command;
mod edits;
mod pins;
mod reader;
mod requests;
mod said;
mod script;
mod value;
mod why;

pub use command::Command;
pub use reader::read_script;
pub use script::Script;
pub use why::{ScriptRefusal, ScriptWhy};

#[cfg(test)]
mod tests;
