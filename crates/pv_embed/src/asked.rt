// What a host may ask of its site besides its items, and why it isn't told.
use pv_base::NoMemory;
use thiserror::Error;

/// What became of a transaction that the site coordinates.
#[derive(Clone, Copy, Debug, PartialEq, Eq)]
pub enum Outcome {
    /// It has committed: a record in the host's file says so.
    Committed,
    /// It hasn't committed, and never will.
    NotCommitted,
    /// The site works on it: it may commit or not.
    AtWork,
}

/// Why a host isn't told what became of a transaction. The causes are tested in this order, but for want of memory, which may come in place of the last one.
#[derive(Clone, Copy, Debug, PartialEq, Eq, Error)]
pub enum OutcomeFault {
    /// Another site coordinates it.
    #[error("the transaction is another site's")]
    NotHere,
    /// Records wait to be written into the host's file. What would be told may rest on them, and a crash may undo it.
    #[error("records wait to be written")]
    Unwritten,
    /// The site has given its number to no transaction yet, and may still do so.
    #[error("no such transaction yet")]
    NotBegun,
    /// There was no memory.
    #[error("no memory")]
    NoMemory,
}

impl From<NoMemory> for OutcomeFault {
    ghost use Rattle.std.specs.Prelude.{◌≡◌};
    ghost use Rattle.pv_embed.specs.declared.asked.OutcomeFault.TheVariants as fault;

    ghost from_gives = { λ _ e. e ≡ fault.NoMemory };

    fn from(_: NoMemory) -> Self {
        OutcomeFault::NoMemory
    }
}
