//! The lines that the program prints: of a version its waves and events, and the answers to a script.
#![tactic(auto)]

mod answers;
mod event_lines;
mod of_version;
mod wave_lines;

pub use answers::{
    edit_line, no_node_line, pinned_line, script_line, unpinned_line, using_line, version_line,
    work_line,
};
pub use event_lines::events_of_deck;
pub use of_version::{events_text, wave_text};
pub use wave_lines::{push_wave, wave_of_node};
