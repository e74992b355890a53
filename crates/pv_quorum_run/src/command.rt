// The command: from its input to what is written, and how it ends.
ghost use Rattle.std.specs.Prelude.{◌≡◌, ◌≤◌, All, List, ℕ, Ok, Err, length};
ghost use Rattle.pv_base.specs.declared.limits.TheConstants.{MAX_INPUT};
ghost use Rattle.pv_commands.specs.Ends.{Answered};
ghost use Rattle.pv_quorum_run.specs.Ends.{EndsQuorum, IsAnswer};
ghost use Rattle.pv_quorum_script.specs.Fits.{IsEventFor};
ghost use Rattle.pv_quorum_script.specs.Reads.{plain};
ghost use Rattle.pv_quorum_script.specs.Script.{script_said};

use crate::running::text_of_run;
use pv_base::MAX_INPUT;
use pv_commands::write_answer;
use pv_io::{ReadEnd, Sink, Source, read_all};
use pv_law_decisions::scripts_keep_promises;
use pv_lines::{Cause, ScriptEnd, refusal};
use pv_quorum_script::{QuorumScript, QuorumScriptError, read_script};
use std::alloc::Global;

/// Reads a script of deciders from the source to its end, runs it, each decider over a log of at most 4,294,967,296 bytes on a disk in memory of its own, and
/// writes what that prints, or the first line at fault. Takes time in proportion to the input and what is sent, but that each `drop` looks at all messages,
/// and each start reads the log; and memory for all that is printed, which is written at once when the run is done.
///
/// An error is why the input wasn't read. Then nothing was written.
pub fn read_and_decide<R: Source, W: Sink>(
    alloc: Global,
    source: &mut R,
    sink: &mut W,
) -> Result<ScriptEnd, ReadEnd>
    ensures { EndsQuorum R.Source W.Sink source.old source.new sink.old sink.new result }
{
    scripts_keep_promises();
    match read_all(alloc, source, MAX_INPUT) {
        Ok(input) => Ok(answer(alloc, &input, sink)),
        Err(why) => Err(why),
    }
}

// What is answered to an input.
fn answer<W: Sink>(alloc: Global, input: &[u8], sink: &mut W) -> ScriptEnd
    requires { length input.now ≤ MAX_INPUT }
    ensures { Answered W.Sink sink.old sink.new IsAnswer input.now result }
{
    match read_script(alloc, input) {
        Ok(script) => run(alloc, &script, sink),
        Err(QuorumScriptError::Malformed { line, cause }) => refuse(alloc, line, cause, sink),
        Err(QuorumScriptError::NoMemory) => ScriptEnd::NoMemory,
    }
}

// What is answered to a script.
fn run<W: Sink>(alloc: Global, script: &QuorumScript, sink: &mut W) -> ScriptEnd
    requires fewest { 3 ≤ script.now.deciders }
    requires most { script.now.deciders ≤ 5 }
    requires events { All (IsEventFor script.now.deciders) script.now.events.items }
    ensures { (input : List ℕ) → script_said input ≡ Ok (plain script.now) → Answered W.Sink sink.old sink.new IsAnswer input result }
{
    match text_of_run(alloc, script) {
        Ok(text) => write_answer(sink, &text, ScriptEnd::Done),
        Err(_) => ScriptEnd::NoMemory,
    }
}

// What is answered to a text whose line of this number is refused.
fn refuse<W: Sink>(alloc: Global, line: u32, cause: Cause, sink: &mut W) -> ScriptEnd
    ensures { (input : List ℕ) → script_said input ≡ Err (record { line = line; cause = cause }) → Answered W.Sink sink.old sink.new IsAnswer input result }
{
    match refusal(alloc, line, cause) {
        Ok(text) => write_answer(sink, text.as_bytes(), ScriptEnd::Malformed),
        Err(_) => ScriptEnd::NoMemory,
    }
}
