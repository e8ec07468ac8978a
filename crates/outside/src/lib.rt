//! What lies outside the simulator: files to read, a place to write to, and what a fault of either may do.
#![tactic(auto)]

mod failed;
mod file_shelf;
mod mem_file;
mod mem_shelf;
mod mem_sink;
mod out_sink;
mod reading;
mod shelf;
mod shelf_file;
mod sink;
#[cfg(test)]
mod tests;

pub use failed::Failed;
pub use file_shelf::FileShelf;
pub use mem_shelf::MemShelf;
pub use mem_sink::MemSink;
pub use out_sink::OutSink;
pub use reading::{READ_LIMIT, ReadRefusal, read_whole};
pub use shelf::Shelf;
pub use sink::{Sink, write_all};
