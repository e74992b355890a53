// Memory that a world keeps for the bytes of the message that is sent next, so that most messages ask for none.
use std::alloc::Global;
use std::marker::Model;
use std::mem::replace;

/// The memory of the last message's bytes.
#[derive(Drop)]
pub(crate) struct Spare {
    /// Bytes that nobody reads.
    bytes: Vec<u8>,
}

// Clauses see nothing of it, so that what is said of a world speaks of no memory.
impl Model for Spare {
    ghost Value = { Unit {0} };

    ghost view = { λ _. tt };
}

impl Spare {
    /// No memory yet.
    pub(crate) fn new(alloc: Global) -> Spare {
        Spare {
            bytes: Vec::new(alloc),
        }
    }

    /// Lends the memory.
    pub(crate) fn lend(&mut self) -> Vec<u8> {
        let none = Vec::new(*self.bytes.allocator());
        replace(&mut self.bytes, none)
    }

    /// Takes it back, with the room that was added.
    pub(crate) fn take_back(&mut self, bytes: Vec<u8>) {
        self.bytes = bytes;
    }
}
