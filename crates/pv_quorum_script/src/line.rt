// What one line of a script says.
ghost use Rattle.std.specs.Prelude.{◌≤◌, IfOk};
ghost use Rattle.pv_lines.specs.Says.{Gives};
ghost use Rattle.pv_lines.specs.Words.{texts};
ghost use Rattle.pv_quorum_script.specs.Fits.{IsEventFor};
ghost use Rattle.pv_quorum_script.specs.Script.{deciders_said, event_said};
ghost use Rattle.pv_quorum_script.specs.Words.{counts_by, same, says};

use crate::QuorumEvent;
use crate::fields::{alone_in, arm_in, count_in, message_in, propose_in, pump_in};
use pv_lines::{Cause, LineFault, words_in};
use std::alloc::Global;

/// How many deciders there are, as the first line that counts says.
pub(crate) fn read_count(alloc: Global, line: &[u8]) -> Result<u8, LineFault>
    ensures said { Gives same (deciders_said line.now) result }
    ensures range { IfOk result (λ count. (3 ≤ count) × (count ≤ 5)) }
{
    match words_in(alloc, line) {
        Ok(words) => count_by(&words),
        Err(fault) => Err(fault),
    }
}

// How many deciders there are, as the words of the first line say.
fn count_by(words: &[&[u8]]) -> Result<u8, LineFault>
    ensures said { Gives same (counts_by (texts words.now)) result }
    ensures range { IfOk result (λ count. (3 ≤ count) × (count ≤ 5)) }
{
    let [word, args @ ..] = words else {
        return Err(LineFault::At(Cause::DecidersExpected));
    };
    if *word != b"deciders".as_slice() {
        return Err(LineFault::At(Cause::DecidersExpected));
    }
    count_in(args)
}

/// What a later line says, where there are so many deciders.
pub(crate) fn read_line(alloc: Global, line: &[u8], count: u8) -> Result<QuorumEvent, LineFault>
    ensures said { Gives same (event_said count line.now) result }
    ensures fits { IfOk result (IsEventFor count) }
{
    match words_in(alloc, line) {
        Ok(words) => event_by(alloc, &words, count),
        Err(fault) => Err(fault),
    }
}

// What the words of a later line say.
fn event_by(alloc: Global, words: &[&[u8]], count: u8) -> Result<QuorumEvent, LineFault>
    ensures said { Gives same (says count (texts words.now)) result }
    ensures fits { IfOk result (IsEventFor count) }
{
    let [word, args @ ..] = words else {
        return Err(LineFault::At(Cause::UnknownWord));
    };
    if *word == b"propose".as_slice() {
        return propose_in(alloc, args, count);
    }
    if *word == b"deliver".as_slice() {
        return Ok(QuorumEvent::Deliver(message_in(args)?));
    }
    if *word == b"pump".as_slice() {
        return pump_in(args);
    }
    if *word == b"lose".as_slice() {
        return Ok(QuorumEvent::Lose(message_in(args)?));
    }
    if *word == b"drop".as_slice() {
        return Ok(QuorumEvent::Drop(alone_in(args, count)?));
    }
    if *word == b"stop".as_slice() {
        return Ok(QuorumEvent::Stop(alone_in(args, count)?));
    }
    if *word == b"start".as_slice() {
        return Ok(QuorumEvent::Start(alone_in(args, count)?));
    }
    if *word == b"cut".as_slice() {
        return arm_in(args, count, true);
    }
    if *word == b"fail".as_slice() {
        return arm_in(args, count, false);
    }
    if *word == b"mend".as_slice() {
        return Ok(QuorumEvent::Mend(alone_in(args, count)?));
    }
    if *word == b"deciders".as_slice() {
        return Err(LineFault::At(Cause::Twice));
    }
    Err(LineFault::At(Cause::UnknownWord))
}
