//! What the proofs know of a pass. No value of these types is made.
use std::collections::LinkedList;

/// What a pass had seen when it was joined, and the numbers that it had.
pub struct Past<E> {
    pub seen: LinkedList<E>,
    pub numbers: LinkedList<u64>,
}

/// What a pass is at.
pub enum Stage<E> {
    Idle,
    /// It took in another pass, and has not looked since.
    Joined(Past<E>, Past<E>),
    /// It has this ticket.
    Waits(u64),
    /// It has this ticket and the slot, where it found a value with these turns.
    Holds(u64, LinkedList<E>),
}

/// What a pass knows.
pub struct Known<E, L> {
    pub label: L,
    pub stage: Stage<E>,
    pub seen: LinkedList<E>,
    pub number: u64,
    /// The numbers that came with other passes.
    pub joined: LinkedList<u64>,
    /// Who has the number 0 knows how many numbers were given.
    pub given: u64,
}

/// A seat of the table: a pass, or what is left of one that was joined to another.
pub enum View<E, L> {
    Spent,
    Live(Known<E, L>),
}
