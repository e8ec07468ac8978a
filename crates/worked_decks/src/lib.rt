//! Tests of decks: texts that are read, parts that decks are made from, and runs.
//!
//! They stand in a crate of their own, since the functions of a crate with tests are proved twice.
#![tactic(auto)]

#[cfg(test)]
mod cards;
#[cfg(test)]
mod circuits;
#[cfg(test)]
mod elements;
#[cfg(test)]
mod records;
#[cfg(test)]
mod runs;
#[cfg(test)]
mod said;
#[cfg(test)]
mod words;
