// Why a world with a host refuses a text or a line.
ghost use Rattle.std.specs.Prelude.{◌≡◌};

use pv_base::NoMemory;
use pv_script::{LineCause, ScriptError};
use std::alloc::AllocError;
use std::error::Error;
use std::fmt;

/// Why a world isn't opened, or makes no step. After [`WorldFault::SentLimit`] and [`WorldFault::BrokenOff`] the world takes no more steps; after all others it is as
/// it was. What was kept stays in each case.
#[derive(Clone, Copy, Debug, PartialEq, Eq)]
pub enum WorldFault {
    /// The text has more than [`MAX_INPUT`](pv_base::MAX_INPUT) bytes. That of a step is the catalog's with the line behind it.
    TooLong,
    /// This line of the text is the first at fault, for this cause. That of a step is the catalog's with the line behind it.
    Malformed {
        /// The line's number, from 1.
        line: u32,
        /// The cause.
        cause: LineCause,
    },
    /// A text that is to declare a catalog has an event.
    HasEvents,
    /// What is to be one event is none or several, or declares something.
    NotOneEvent,
    /// The encoded bytes of all messages, with those of the first one in this step that passes the limit, are so many.
    SentLimit(u64),
    /// There was no memory. Nothing changed.
    NoMemory,
    /// There was no memory within the step.
    BrokenOff,
    /// An earlier step was broken off, or passed the limit.
    Closed,
}

impl fmt::Display for WorldFault {
    fn fmt<W: fmt::Write>(&self, f: &mut fmt::Formatter<W>) -> fmt::Result {
        match self {
            WorldFault::TooLong => f.write_str("the text is too long"),
            WorldFault::Malformed { line, cause } => write!(f, "line {line}: {cause}"),
            WorldFault::HasEvents => f.write_str("the catalog has events"),
            WorldFault::NotOneEvent => f.write_str("the line is not one event"),
            WorldFault::SentLimit(total) => write!(f, "the messages would have {total} bytes"),
            WorldFault::NoMemory => f.write_str("no memory"),
            WorldFault::BrokenOff => f.write_str("no memory within the step"),
            WorldFault::Closed => f.write_str("the world takes no more steps"),
        }
    }
}

impl Error for WorldFault {}

impl From<NoMemory> for WorldFault {
    ghost use Rattle.pv_embed_world.specs.declared.fault.WorldFault.TheVariants as fault;

    ghost from_gives = { λ _ e. e ≡ fault.NoMemory };

    fn from(_: NoMemory) -> Self {
        WorldFault::NoMemory
    }
}

impl From<AllocError> for WorldFault {
    ghost use Rattle.pv_embed_world.specs.declared.fault.WorldFault.TheVariants as fault;

    ghost from_gives = { λ _ e. e ≡ fault.NoMemory };

    fn from(_: AllocError) -> Self {
        WorldFault::NoMemory
    }
}

impl From<ScriptError> for WorldFault {
    ghost use Rattle.pv_embed_world.specs.Faults.{fault_of};

    ghost from_gives = { λ error e. e ≡ fault_of error };

    fn from(error: ScriptError) -> Self {
        match error {
            ScriptError::Malformed { line, cause } => WorldFault::Malformed { line, cause },
            ScriptError::NoMemory => WorldFault::NoMemory,
        }
    }
}
