// What a trace says, and why a text is none.
use pv_base::{Catalog, NoMemory};
use pv_script::{Event, Line, LineCause, ScriptError};
use std::alloc::AllocFailed;

/// An event, and the lines that it printed.
#[derive(Debug, Drop)]
pub struct TracePart {
    /// The event.
    pub event: Event,
    /// The lines, in order.
    pub lines: Vec<Line>,
}

/// What is declared, and what happens and is printed, in the order of the lines.
#[derive(Debug, Drop)]
pub struct Trace {
    /// The sites, the limit of their journals, and the items.
    pub catalog: Catalog,
    /// The events, each with its lines.
    pub parts: Vec<TracePart>,
}

/// Why a text wasn't read as a trace.
#[derive(Clone, Copy, Debug, PartialEq, Eq)]
pub enum TraceError {
    /// A line is at fault, and none before it.
    Malformed {
        /// The line's number, from 1. Where the text has no line that counts, it is the number after the last one.
        line: u32,
        /// What is wrong with it: `NotATrace`, or the cause of a line of the schedule.
        cause: LineCause,
    },
    /// There was no memory.
    NoMemory,
}

impl From<NoMemory> for TraceError {
    ghost use Rattle.std.specs.Prelude.{◌≡◌};
    ghost use Rattle.pv_audit.specs.declared.trace.TraceError.TheVariants as error;

    ghost from_gives = { λ _ e. e ≡ error.NoMemory };

    fn from(_: NoMemory) -> Self {
        TraceError::NoMemory
    }
}

impl<T: Drop> From<AllocFailed<T>> for TraceError {
    ghost use Rattle.std.specs.Prelude.{◌≡◌};
    ghost use Rattle.pv_audit.specs.declared.trace.TraceError.TheVariants as error;

    ghost from_gives = { λ _ e. e ≡ error.NoMemory };

    fn from(_: AllocFailed<T>) -> Self {
        TraceError::NoMemory
    }
}

impl From<ScriptError> for TraceError {
    ghost use Rattle.std.specs.Prelude.{◌≡◌};
    ghost use Rattle.pv_audit.specs.ErrorView.{trace_error_of};

    ghost from_gives = { λ fault e. e ≡ trace_error_of fault };

    fn from(fault: ScriptError) -> Self {
        match fault {
            ScriptError::Malformed { line, cause } => TraceError::Malformed { line, cause },
            ScriptError::NoMemory => TraceError::NoMemory,
        }
    }
}
