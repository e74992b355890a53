// What a script of deciders says.
use pv_base::{Mode, TxnId};

/// What happens to deciders, their messages and their disks.
#[derive(Clone, Copy, Debug, PartialEq, Eq)]
pub enum QuorumEvent {
    /// A decider proposes an outcome.
    Propose {
        /// The decider.
        decider: u8,
        /// The transaction.
        txn: TxnId,
        /// Whether it is to commit.
        commits: bool,
    },
    /// A message, by its number, is done now: its receiver takes it if that is up.
    Deliver(u64),
    /// The messages that are neither delivered nor lost are delivered, the least number first, until none is left or so many were delivered.
    Pump(Option<u32>),
    /// A message, by its number, is done without being taken.
    Lose(u64),
    /// All messages to a decider are done.
    Drop(u8),
    /// A decider stops between steps.
    Stop(u8),
    /// A decider starts.
    Start(u8),
    /// A later write or sync of a decider's disk fires.
    Arm {
        /// The decider.
        decider: u8,
        /// It is the write or sync with this number from now on, counted from 1.
        call: u32,
        /// What it leaves.
        mode: Mode,
        /// Whether it stops the decider. Else it is a fault of the disk.
        stop: bool,
    },
    /// No write and no sync of a decider's disk fires.
    Mend(u8),
}

/// How many deciders there are, and what happens then, in the order of the lines.
#[derive(Debug, Drop)]
pub struct QuorumScript {
    /// How many deciders there are: three to five.
    pub deciders: u8,
    /// What happens, in order.
    pub events: Vec<QuorumEvent>,
}
