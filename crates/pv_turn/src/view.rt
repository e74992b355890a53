// What a seat knows of its turn, and what a turn is told when it is made. No value of either is made at run time.
use std::collections::LinkedList;

/// What a seat knows of its turn.
pub struct View<E> {
    /// The entries that it has seen.
    pub seen: LinkedList<E>,
    /// The entries that a seat had seen which was joined to it.
    pub told: LinkedList<E>,
    /// Where it stands: it rests, has the value, or has set it back.
    pub stage: u64,
    /// How many seats it stands for.
    pub parts: u64,
}
