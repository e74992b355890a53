// What stands after the first word of a line.
ghost use Rattle.std.specs.Prelude.{◌≡◌, ◌<◌, ◌≤◌, ℕ, Some, [], ◌∷◌, IfOk, IfSome};
ghost use Rattle.pv_base.specs.declared.limits.TheConstants.{MAX_CALL};
ghost use Rattle.pv_lines.specs.Says.{Gives};
ghost use Rattle.pv_lines.specs.Spelled.{mode_said, number_said};
ghost use Rattle.pv_lines.specs.Words.{texts};
ghost use Rattle.pv_quorum_script.specs.Fits.{IsEventFor};
ghost use Rattle.pv_quorum_script.specs.Words.{arm_said, arm_with, count_said, decider_alone, decider_said, message_said, propose_said, pump_said, same};

use crate::QuorumEvent;
use pv_base::{MAX_CALL, MAX_PUMP};
use pv_lines::{Cause, LineFault, mode_in, number_in, truth_in, txn_in};
use std::alloc::Global;

/// How many deciders there are, as the words after `deciders` say.
pub(crate) fn count_in(args: &[&[u8]]) -> Result<u8, LineFault>
    ensures said { Gives same (count_said (texts args.now)) result }
    ensures range { IfOk result (λ count. (3 ≤ count) × (count ≤ 5)) }
{
    let [word] = args else {
        return Err(LineFault::At(Cause::WrongCount));
    };
    match number_in(word, 3, 5) {
        Some(count) => Ok(count as u8),
        None => Err(LineFault::At(Cause::BadNumber)),
    }
}

// The decider that a word spells, of so many.
fn decider_in(word: &[u8], count: u8) -> Option<u8>
    ensures said { result ≡ decider_said count word.now }
    ensures below { IfSome result (λ decider. decider < count) }
{
    let decider = number_in(word, 0, u64::from(u8::MAX))?;
    if decider >= u64::from(count) {
        return None;
    }
    Some(decider as u8)
}

/// The decider that alone stands after a word.
pub(crate) fn alone_in(args: &[&[u8]], count: u8) -> Result<u8, LineFault>
    ensures said { Gives same (decider_alone count (texts args.now)) result }
    ensures below { IfOk result (λ decider. decider < count) }
{
    let [word] = args else {
        return Err(LineFault::At(Cause::WrongCount));
    };
    match decider_in(word, count) {
        Some(decider) => Ok(decider),
        None => Err(LineFault::At(Cause::BadNumber)),
    }
}

/// The number of a message that alone stands after a word.
pub(crate) fn message_in(args: &[&[u8]]) -> Result<u64, LineFault>
    ensures { Gives same (message_said (texts args.now)) result }
{
    let [word] = args else {
        return Err(LineFault::At(Cause::WrongCount));
    };
    match number_in(word, 0, u64::MAX) {
        Some(number) => Ok(number),
        None => Err(LineFault::At(Cause::BadNumber)),
    }
}

/// What the words after `propose` say: a decider, a transaction, and `yes` or `no`.
pub(crate) fn propose_in(alloc: Global, args: &[&[u8]], count: u8) -> Result<QuorumEvent, LineFault>
    ensures said { Gives same (propose_said count (texts args.now)) result }
    ensures fits { IfOk result (IsEventFor count) }
{
    let [at, word, truth] = args else {
        return Err(LineFault::At(Cause::WrongCount));
    };
    let Some(decider) = decider_in(at, count) else {
        return Err(LineFault::At(Cause::BadNumber));
    };
    let Some(txn) = txn_in(alloc, word)? else {
        return Err(LineFault::At(Cause::BadNumber));
    };
    let Some(commits) = truth_in(truth) else {
        return Err(LineFault::At(Cause::BadNumber));
    };
    Ok(QuorumEvent::Propose {
        decider,
        txn,
        commits,
    })
}

/// What the words after `pump` say: how many messages are delivered at most, or nothing.
pub(crate) fn pump_in(args: &[&[u8]]) -> Result<QuorumEvent, LineFault>
    ensures said { Gives same (pump_said (texts args.now)) result }
    ensures fits { (count : ℕ) → IfOk result (IsEventFor count) }
{
    match args {
        [] => Ok(QuorumEvent::Pump(None)),
        [word] => most_in(word),
        _ => Err(LineFault::At(Cause::WrongCount)),
    }
}

// The pump of as many messages as the word says.
fn most_in(word: &[u8]) -> Result<QuorumEvent, LineFault>
    ensures said { Gives same (pump_said (word.now ∷ [])) result }
    ensures fits { (count : ℕ) → IfOk result (IsEventFor count) }
{
    match number_in(word, 1, u64::from(MAX_PUMP)) {
        Some(most) => Ok(QuorumEvent::Pump(Some(most as u32))),
        None => Err(LineFault::At(Cause::BadNumber)),
    }
}

/// What the words after `cut` or `fail` say: a decider, the number of a write or sync, and a mode.
pub(crate) fn arm_in(args: &[&[u8]], count: u8, stop: bool) -> Result<QuorumEvent, LineFault>
    ensures said { Gives same (arm_said count stop (texts args.now)) result }
    ensures fits { IfOk result (IsEventFor count) }
{
    let [at, number, word] = args else {
        return Err(LineFault::At(Cause::WrongCount));
    };
    let Some(decider) = decider_in(at, count) else {
        return Err(LineFault::At(Cause::BadNumber));
    };
    fault_in(decider, number, word, stop)
}

// What arms a decider's disk, as the words after the decider say: the number of a write or sync, and a mode.
fn fault_in(decider: u8, number: &[u8], word: &[u8], stop: bool) -> Result<QuorumEvent, LineFault>
    ensures said { Gives same (arm_with stop (Some decider) (number_said 1 MAX_CALL number.now) (mode_said word.now)) result }
    ensures fits { (count : ℕ) → decider < count → IfOk result (IsEventFor count) }
{
    let Some(call) = number_in(number, 1, u64::from(MAX_CALL)) else {
        return Err(LineFault::At(Cause::BadNumber));
    };
    let Some(mode) = mode_in(word) else {
        return Err(LineFault::At(Cause::BadMode));
    };
    Ok(QuorumEvent::Arm {
        decider,
        call: call as u32,
        mode,
        stop,
    })
}
