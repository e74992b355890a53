// A script as a text.
ghost use Rattle.std.specs.Prelude.{◌≡◌, ◌≤◌, All, length, IfOk, IfErr};
ghost use Rattle.pv_outbox_script.specs.Held.{CanHappen};
ghost use Rattle.pv_outbox_script.specs.Script.{IsScript, RefusesScript};
ghost use Rattle.pv_script.specs.declared.lines.TheConstants.{MAX_SCHEDULE};

use crate::event::Event;
use crate::line::read_line;
use pv_lines::{Cause, LineFault, Lines};
use std::alloc::{AllocFailed, Global};

/// Why a text isn't read.
#[derive(Clone, Copy, Debug, PartialEq, Eq)]
pub enum ScriptError {
    /// It is no script.
    Malformed {
        /// The first line at fault, by its number from 1.
        line: u32,
        /// The first cause of that line.
        cause: Cause,
    },
    /// There was no memory.
    NoMemory,
}

impl<T: Drop> From<AllocFailed<T>> for ScriptError {
    ghost use Rattle.std.specs.Prelude.{◌≡◌};
    ghost use Rattle.pv_outbox_script.specs.declared.script.ScriptError.TheVariants as error;

    ghost from_gives = { λ _ e. e ≡ error.NoMemory };

    fn from(_: AllocFailed<T>) -> Self {
        ScriptError::NoMemory
    }
}

/// What the lines of a text say that count, one event each, or the first of them that says nothing. Takes time in proportion to the text, but for the conditions, each of which takes
/// the time of [`Poly::from_cases`](pv_tree::Poly::from_cases).
pub fn read_script(alloc: Global, text: &[u8]) -> Result<Vec<Event>, ScriptError>
    requires { length text.now ≤ MAX_SCHEDULE }
    ensures script { IfOk result (λ events. IsScript text.now events.items) }
    ensures refused { IfErr result (RefusesScript text.now) }
    ensures possible { IfOk result (λ events. All CanHappen events.items) }
{
    let mut lines = Lines::new(text);
    let mut events = Vec::new(alloc);
    while let Some(line) = lines.next() {
        match read_line(alloc, line.text) {
            Ok(event) => events.push(event)?,
            Err(LineFault::At(cause)) => {
                return Err(ScriptError::Malformed {
                    line: line.number,
                    cause,
                });
            }
            Err(LineFault::NoMemory) => return Err(ScriptError::NoMemory),
        }
    }
    Ok(events)
}
