// What a pass knows. No value of these types is made.

use std::collections::LinkedList;

/// What the value was when the lock was opened: its root and its list.
pub struct Opened<X, Root> {
    pub root: Root,
    pub start: LinkedList<(u32, X)>,
}

/// One pass: its number, what the value was at the opening, the list that the pass has seen, and what it published, each item
/// with its place.
pub struct Known<X, Root> {
    pub number: u32,
    pub opened: Option<Opened<X, Root>>,
    pub seen: LinkedList<(u32, X)>,
    pub published: LinkedList<(u64, X)>,
}

/// Where a seat stands.
pub enum Phase<X> {
    /// The lock has no value yet.
    Empty,
    /// The seat has the slot, and puts the first value in.
    Filling,
    Idle,
    /// It has a ticket.
    Waiting(u64),
    /// Its ticket is served, and the list is this one.
    Served(u64, LinkedList<(u32, X)>),
}

/// The passes that a seat stands for, which is one but while the lock is opened or closed, and its phase.
pub struct View<X, Root> {
    pub passes: LinkedList<Known<X, Root>>,
    pub phase: Phase<X>,
}
