use crate::part::Part;
use indexmap::IndexMap;
use semantics::{Name, Title};

/// What no edit of a deck changes.
#[derive(Drop)]
pub struct Frame {
    pub title: Title,
    pub stop: u64,
    pub uic: bool,
    pub grain: u32,
    pub parts: IndexMap<Name, Part>,
}
