// Why a site with a host refuses what the host asks. Each refusal leaves the site as it was.
use pv_base::NoMemory;
use pv_check::CheckError;
use pv_parse::ParseError;
use pv_script::LineCause;
use pv_wire::WireError;
use thiserror::Error;

/// Why a site isn't opened. The causes are tested in this order, but for want of memory, which may come at any place.
#[derive(Clone, Copy, Debug, PartialEq, Eq, Error)]
pub enum OpenFault {
    /// The configuration has more than [`MAX_INPUT`](pv_base::MAX_INPUT) bytes.
    #[error("the configuration is too long")]
    TooLong,
    /// This line of the configuration is the first that is malformed, for this cause.
    #[error("line {line}: {cause}")]
    Malformed {
        /// The line, from 1.
        line: u32,
        /// The cause.
        cause: LineCause,
    },
    /// The configuration has an event.
    #[error("the configuration has events")]
    HasEvents,
    /// The configuration has no such site.
    #[error("no such site")]
    NoSite,
    /// The bytes are no journal, which shows at this place.
    #[error("no journal: byte {0}")]
    NotOurs(u64),
    /// The content with this index, from 0, is no record, and those before it are.
    #[error("no record: content {0}")]
    BadRecord(u64),
    /// With its records the value of an item would name this many outcomes.
    #[error("too many outcomes: {0}")]
    TooManyOutcomes(u32),
    /// No epoch is left.
    #[error("no epoch is left")]
    EpochsSpent,
    /// The journal would have this length with the record of the new epoch, above its limit.
    #[error("the journal would have {0} bytes")]
    Full(u64),
    /// There was no memory.
    #[error("no memory")]
    NoMemory,
}

/// Why a request isn't taken. The causes are tested in this order, but for want of memory, which may come at any place.
#[derive(Clone, Copy, Debug, PartialEq, Eq, Error)]
pub enum SubmitFault {
    /// Its text is no program.
    #[error(transparent)]
    Text(ParseError),
    /// The program may not run.
    #[error(transparent)]
    Program(CheckError),
    /// There was no memory.
    #[error("no memory")]
    NoMemory,
}

/// Why a message isn't taken. The causes are tested in this order, but for want of memory, which may come at any place.
#[derive(Clone, Copy, Debug, PartialEq, Eq, Error)]
pub enum ReceiveFault {
    /// The bytes are no message.
    #[error(transparent)]
    Malformed(WireError),
    /// The message goes to another site.
    #[error("the message goes to another site")]
    NotForHere,
    /// There is no such site as the message comes from.
    #[error("the message comes from no site")]
    NoSender,
    /// There was no memory.
    #[error("no memory")]
    NoMemory,
}

/// Why an item isn't read. The causes are tested in this order.
#[derive(Clone, Copy, Debug, PartialEq, Eq, Error)]
pub enum ReadFault {
    /// No item has this name.
    #[error("unknown name")]
    UnknownName,
    /// The item is at another site.
    #[error("the item is at another site")]
    NotHere,
    /// Records wait to be written into the host's file. What the item shows may rest on them, and a crash may undo it.
    #[error("records wait to be written")]
    Unwritten,
}

impl From<NoMemory> for OpenFault {
    ghost use Rattle.std.specs.Prelude.{◌≡◌};
    ghost use Rattle.pv_embed.specs.declared.fault.OpenFault.TheVariants as fault;

    ghost from_gives = { λ _ e. e ≡ fault.NoMemory };

    fn from(_: NoMemory) -> Self {
        OpenFault::NoMemory
    }
}

impl From<NoMemory> for SubmitFault {
    ghost use Rattle.std.specs.Prelude.{◌≡◌};
    ghost use Rattle.pv_embed.specs.declared.fault.SubmitFault.TheVariants as fault;

    ghost from_gives = { λ _ e. e ≡ fault.NoMemory };

    fn from(_: NoMemory) -> Self {
        SubmitFault::NoMemory
    }
}

impl From<NoMemory> for ReceiveFault {
    ghost use Rattle.std.specs.Prelude.{◌≡◌};
    ghost use Rattle.pv_embed.specs.declared.fault.ReceiveFault.TheVariants as fault;

    ghost from_gives = { λ _ e. e ≡ fault.NoMemory };

    fn from(_: NoMemory) -> Self {
        ReceiveFault::NoMemory
    }
}
