//! What the edits of a deck change: the laws that the repair of a record after an edit stands on.
#![tactic(auto)]

pub mod laws;
