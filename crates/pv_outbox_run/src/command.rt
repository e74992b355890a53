// The command: it reads a script and writes what that prints.
ghost use Rattle.std.specs.Prelude.{◌≡◌, ◌⊎◌, ◌≤◌, length};
ghost use Rattle.pv_commands.specs.Ends.{Answered};
ghost use Rattle.pv_outbox_run.specs.Answer.{EndsOutbox, IsAnswer};
ghost use Rattle.pv_script.specs.declared.lines.TheConstants.{MAX_SCHEDULE};

use crate::laws::scripts_keep_outputs;
use crate::run::run;
use pv_base::MAX_INPUT;
use pv_commands::write_answer;
use pv_io::{ReadEnd, Sink, Source, read_all};
use pv_lines::{ScriptEnd, refusal};
use pv_outbox_script::{ScriptError, read_script};
use std::alloc::Global;

/// Reads a script of an outbox from the source to its end, runs it over one disk in memory, and writes what it prints, or the first line at fault. Takes time in proportion to the
/// input, but for the conditions and for the starts, each of which reads what is recorded so far.
///
/// An error is why the input wasn't read. Then nothing was written.
pub fn read_and_run<R: Source, W: Sink>(
    alloc: Global,
    source: &mut R,
    sink: &mut W,
) -> Result<ScriptEnd, ReadEnd>
    ensures { EndsOutbox R.Source W.Sink source.old source.new sink.old sink.new result }
{
    scripts_keep_outputs();
    match read_all(alloc, source, MAX_INPUT) {
        Ok(input) => Ok(answer(alloc, &input, sink)),
        Err(why) => Err(why),
    }
}

// Answers to a text.
fn answer<W: Sink>(alloc: Global, input: &[u8], sink: &mut W) -> ScriptEnd
    requires { length input.now ≤ MAX_SCHEDULE }
    ensures { Answered W.Sink sink.old sink.new IsAnswer input.now result }
{
    match read_script(alloc, input) {
        Ok(events) => match run(alloc, &events) {
            Ok(text) => write_answer(sink, &text, ScriptEnd::Done),
            Err(_) => ScriptEnd::NoMemory,
        },
        Err(ScriptError::Malformed { line, cause }) => match refusal(alloc, line, cause) {
            Ok(text) => write_answer(sink, text.as_bytes(), ScriptEnd::Malformed),
            Err(_) => ScriptEnd::NoMemory,
        },
        Err(ScriptError::NoMemory) => ScriptEnd::NoMemory,
    }
}
