//! The waves of nodes as lists of lines, from a record of the run and the sources of a deck.
#![tactic(auto)]

mod waves;

pub use waves::wave;
