//! What a pass knows, for contracts alone: no value of these types is made.
use std::collections::LinkedList;

/// A `Stage` is the state of a pass.
pub enum Stage<E> {
    Spent,
    New,
    Idle,
    Turn,
    /// It just took in a pass: its number, and what it had seen and made.
    Joined(u64, LinkedList<(u64, E)>, LinkedList<(u64, E)>),
}

/// A `View` is what a pass knows. An entry is an event with the number of the pass that called.
/// `splits` and `calls` count: a pass that was split off, or a turn, that leaves no entry.
pub struct View<O, E> {
    pub stage: Stage<E>,
    pub number: u64,
    pub opening: Option<O>,
    pub seen: LinkedList<(u64, E)>,
    pub mine: LinkedList<(u64, E)>,
    pub splits: u64,
    pub calls: u64,
}
