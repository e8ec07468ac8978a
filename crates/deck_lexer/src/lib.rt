//! Cuts the text of a circuit deck into lines, cards and words, and finds the first line at fault.
//!
//! The text is read once, line by line, and a card at a time can be had of it. A card takes its bytes, and 8 more for
//! each word.
#![tactic(auto)]

pub use card_line::{CardLine, Cards};
pub use fault::LexFault;
pub use lexer::{Lexed, Lexer, Next, cards};
pub use line::{begins_with, is_ascii};
pub use lines::Lines;
pub use word::{Word, words};

mod card_line;
mod draft;
mod fault;
mod lexer;
mod line;
mod lines;
mod pending;
mod scan;
mod word;
