// A script as a text.
ghost use Rattle.std.specs.Prelude.{◌≡◌, ◌≤◌, All, IfOk, length};
ghost use Rattle.pv_quorum_script.specs.Fits.{IsEventFor};
ghost use Rattle.pv_quorum_script.specs.Reads.{Reads, error_at};
ghost use Rattle.pv_script.specs.declared.lines.TheConstants.{MAX_SCHEDULE};

use crate::QuorumScript;
use crate::line::{read_count, read_line};
use pv_lines::{Cause, LineFault, Lines};
use pv_script::line_after;
use std::alloc::{AllocFailed, Global};

/// Why a text isn't read.
#[derive(Clone, Copy, Debug, PartialEq, Eq)]
pub enum QuorumScriptError {
    /// It is no script.
    Malformed {
        /// The first line at fault, by its number from 1. Where no line counts, it is the number after the last one.
        line: u32,
        /// The first cause of that line.
        cause: Cause,
    },
    /// There was no memory.
    NoMemory,
}

impl<T: Drop> From<AllocFailed<T>> for QuorumScriptError {
    ghost use Rattle.std.specs.Prelude.{◌≡◌};
    ghost use Rattle.pv_quorum_script.specs.declared.script.QuorumScriptError.TheVariants as error;

    ghost from_gives = { λ _ e. e ≡ error.NoMemory };

    fn from(_: AllocFailed<T>) -> Self {
        QuorumScriptError::NoMemory
    }
}

/// The script that a text of at most [`MAX_SCHEDULE`](pv_script::MAX_SCHEDULE) bytes is: its first line that counts says how many deciders there are, and each
/// later one is an event. The first line at fault refuses the text, with its first cause in the order of [`Cause`]. Takes time in proportion to the text.
pub fn read_script(alloc: Global, text: &[u8]) -> Result<QuorumScript, QuorumScriptError>
    requires { length text.now ≤ MAX_SCHEDULE }
    ensures said { Reads text.now result }
    ensures range { IfOk result (λ script. (3 ≤ script.deciders) × (script.deciders ≤ 5)) }
    ensures events { IfOk result (λ script. All (IsEventFor script.deciders) script.events.items) }
{
    let mut lines = Lines::new(text);
    let Some(first) = lines.next() else {
        return Err(QuorumScriptError::Malformed {
            line: line_after(text),
            cause: Cause::DecidersExpected,
        });
    };
    let deciders = match read_count(alloc, first.text) {
        Ok(deciders) => deciders,
        Err(fault) => return Err(at(fault, first.number)),
    };
    let mut events = Vec::new(alloc);
    while let Some(line) = lines.next() {
        match read_line(alloc, line.text, deciders) {
            Ok(event) => events.push(event)?,
            Err(fault) => return Err(at(fault, line.number)),
        }
    }
    Ok(QuorumScript { deciders, events })
}

// The refusal of the line of this number.
fn at(fault: LineFault, line: u32) -> QuorumScriptError
    ensures { result ≡ error_at line fault }
{
    match fault {
        LineFault::At(cause) => QuorumScriptError::Malformed { line, cause },
        LineFault::NoMemory => QuorumScriptError::NoMemory,
    }
}
