//! Reads the text of a circuit deck: the deck that its cards say, or its first fault.
#![tactic(auto)]

mod capacitor;
mod cards;
mod circuit;
mod device;
mod element;
mod index;
mod initial;
mod model;
mod number;
mod options;
mod parts;
mod placed;
mod reader;
mod resistor;
mod settings;
mod source;
mod table;
mod told;
mod tran;
mod whole;
mod why;
mod words;

pub use element::{read_element, read_wave};
pub use reader::read;
pub use why::{DeckRefusal, DeckWhy};
pub use words::{Word, Words, node_of};
