// What stands after the first word of a line.
ghost use Rattle.std.specs.Prelude.{◌≡◌, IfOk};
ghost use Rattle.pv_lines.specs.Says.{Gives};
ghost use Rattle.pv_lines.specs.Words.{texts};
ghost use Rattle.pv_outbox_script.specs.Held.{CanBeSpelled, CanHappen, ReadsCondition, ReadsHold, same};
ghost use Rattle.pv_outbox_script.specs.Words.{alone_said, arm_said, learn_said};

use crate::cases::cases_in;
use crate::event::Event;
use pv_base::{CaseError, MAX_CALL};
use pv_law_format::some_polyvalue_spelling;
use pv_lines::{Cause, LineFault, mode_in, number_in, truth_in, txn_in};
use pv_tree::Poly;
use std::alloc::Global;

/// What the words after `hold` say: an output, and the cases of a condition.
pub(crate) fn hold_in(alloc: Global, args: &[&[u8]]) -> Result<Event, LineFault>
    ensures said { ReadsHold (texts args.now) result }
    ensures possible { IfOk result CanHappen }
{
    let [number, cases @ ..] = args else {
        return Err(LineFault::At(Cause::WrongCount));
    };
    if cases.is_empty() {
        return Err(LineFault::At(Cause::WrongCount));
    }
    let Some(output) = number_in(number, 0, u64::from(u32::MAX)) else {
        return Err(LineFault::At(Cause::BadNumber));
    };
    match condition_in(alloc, cases) {
        Ok(when) => Ok(Event::Hold {
            output: output as u32,
            when,
        }),
        Err(fault) => Err(fault),
    }
}

/// The condition that words spell.
pub(crate) fn condition_in(alloc: Global, words: &[&[u8]]) -> Result<Poly<i64>, LineFault>
    ensures said { ReadsCondition (texts words.now) result }
    ensures spelled { IfOk result CanBeSpelled }
{
    some_polyvalue_spelling();
    let Some(cases) = cases_in(alloc, words)? else {
        return Err(LineFault::At(Cause::BadCases));
    };
    match Poly::from_cases(alloc, cases) {
        Ok(when) => Ok(when),
        Err(CaseError::NoMemory) => Err(LineFault::NoMemory),
        Err(_) => Err(LineFault::At(Cause::BadCases)),
    }
}

/// What the words after `learn` say: a transaction, and `yes` or `no`.
pub(crate) fn learn_in(alloc: Global, args: &[&[u8]]) -> Result<Event, LineFault>
    ensures said { Gives same (learn_said (texts args.now)) result }
    ensures possible { IfOk result CanHappen }
{
    let [word, truth] = args else {
        return Err(LineFault::At(Cause::WrongCount));
    };
    let Some(txn) = txn_in(alloc, word)? else {
        return Err(LineFault::At(Cause::BadNumber));
    };
    let Some(commits) = truth_in(truth) else {
        return Err(LineFault::At(Cause::BadNumber));
    };
    Ok(Event::Learn { txn, commits })
}

/// What the words after `cut` or `fail` say: the number of a write or sync, and a mode.
pub(crate) fn arm_in(args: &[&[u8]], stop: bool) -> Result<Event, LineFault>
    ensures said { Gives same (arm_said stop (texts args.now)) result }
    ensures possible { IfOk result CanHappen }
{
    let [number, word] = args else {
        return Err(LineFault::At(Cause::WrongCount));
    };
    let Some(k) = number_in(number, 1, u64::from(MAX_CALL)) else {
        return Err(LineFault::At(Cause::BadNumber));
    };
    let Some(mode) = mode_in(word) else {
        return Err(LineFault::At(Cause::BadMode));
    };
    Ok(Event::Arm {
        k: k as u32,
        mode,
        stop,
    })
}

/// The event of a word that stands alone.
pub(crate) fn alone(event: Event, args: &[&[u8]]) -> Result<Event, LineFault>
    ensures { Gives same (alone_said event (texts args.now)) result }
{
    if !args.is_empty() {
        return Err(LineFault::At(Cause::WrongCount));
    }
    Ok(event)
}
