// A condition alone, as a line has it behind its output.
ghost use Rattle.std.specs.Prelude.{IfOk};
ghost use Rattle.pv_outbox_script.specs.Condition.{ReadsText};
ghost use Rattle.pv_outbox_script.specs.Held.{CanBeSpelled};

use crate::fields::condition_in;
use pv_lines::{LineFault, words_in};
use pv_tree::Poly;
use std::alloc::Global;

/// The condition that a text of one line spells, as a line has it behind its output. Where the text spells none the fault is at it, whichever its cause.
pub fn read_condition(alloc: Global, text: &[u8]) -> Result<Poly<i64>, LineFault>
    ensures said { ReadsText text.now result }
    ensures spelled { IfOk result CanBeSpelled }
{
    match words_in(alloc, text) {
        Ok(words) => condition_in(alloc, &words),
        Err(fault) => Err(fault),
    }
}
