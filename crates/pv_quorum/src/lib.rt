//! Deciders that fix one outcome for each transaction: a majority of three to five is enough, and no one of them is waited for.
#![tactic(auto)]

mod ballot;
mod counted;
mod decider;
mod error;
mod known;
mod laws;
mod made;
mod memory;
mod message;
mod opening;
mod promising;
mod proposing;
mod record;
mod writing;

pub use ballot::Ballot;
pub use decider::Decider;
pub use error::{OpenDecider, QuorumError};
pub use laws::contents_tell_records;
pub use message::{QuorumInput, QuorumMessage, QuorumSend, QuorumStep};
