// Why a site in bytes refuses what the engine itself doesn't refuse.
use pv_base::NoMemory;
use pv_embed::ReadFault;

/// Why a write isn't taken as done: it isn't the one that is next. It is done already, its bytes were never given, or it was never asked for.
#[derive(Clone, Copy, Debug, PartialEq, Eq)]
pub struct NotNext;

/// Why an item's value isn't given.
#[derive(Clone, Copy, Debug, PartialEq, Eq)]
pub enum ValueFault {
    /// No item has this name.
    UnknownName,
    /// The item is at another site.
    NotHere,
    /// Records wait to be written into the host's file, and what the item shows may rest on them.
    Unwritten,
    /// There was no memory.
    NoMemory,
}

impl From<ReadFault> for ValueFault {
    ghost use Rattle.std.specs.Prelude.{◌≡◌};
    ghost use Rattle.pv_handle.specs.Faults.{value_fault};

    ghost from_gives = { λ fault e. e ≡ value_fault fault };

    fn from(fault: ReadFault) -> Self {
        match fault {
            ReadFault::UnknownName => ValueFault::UnknownName,
            ReadFault::NotHere => ValueFault::NotHere,
            ReadFault::Unwritten => ValueFault::Unwritten,
        }
    }
}

impl From<NoMemory> for ValueFault {
    ghost use Rattle.std.specs.Prelude.{◌≡◌};
    ghost use Rattle.pv_handle.specs.declared.faults.ValueFault.TheVariants as fault;

    ghost from_gives = { λ _ e. e ≡ fault.NoMemory };

    fn from(_: NoMemory) -> Self {
        ValueFault::NoMemory
    }
}
