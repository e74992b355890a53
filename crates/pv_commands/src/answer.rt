// How an answer is written.
ghost use Rattle.pv_commands.specs.Ends.{EndsWriting};

use pv_io::{Sink, write_all};
use pv_lines::ScriptEnd;

/// Writes an answer with which a command ends so, if all of it is written.
pub fn write_answer<W: Sink>(sink: &mut W, answer: &[u8], end: ScriptEnd) -> ScriptEnd
    ensures { EndsWriting W.Sink sink.old sink.new answer.now end result }
{
    match write_all(sink, answer) {
        Ok(()) => end,
        Err(_) => ScriptEnd::WriteFault,
    }
}
