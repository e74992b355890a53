// A decider as one that promises and accepts.
ghost use Rattle.std.specs.Prelude.{◌≡◌, All, IfOk};
ghost use Rattle.std.specs.Option.{option_map};
ghost use Rattle.pv_law_quorum.specs.Ballot as law;
ghost use Rattle.pv_law_quorum.specs.Decider as rules;
ghost use Rattle.pv_quorum.specs.Knows.{Knows};
ghost use Rattle.pv_quorum.specs.Makes.{IsMade};
ghost use Rattle.pv_quorum.specs.Spelling.{IsInRange};
ghost use Rattle.pv_quorum.specs.Values.{ballot_of};

use crate::known::Known;
use crate::made::{Made, to_one};
use crate::record::Record;
use crate::{Ballot, QuorumMessage};
use pv_base::{NoMemory, TxnId};
use std::alloc::Global;

/// A promise is asked for: it is given where the ballot is above each that was promised or accepted, and tells the last vote.
pub(crate) fn on_prepare(
    alloc: Global,
    from: u8,
    txn: TxnId,
    ballot: Ballot,
    known: &Known,
) -> Result<Made, NoMemory>
    ensures { (here : rules.Here) → Knows here txn known.now → IfOk result (λ made. IsMade here.me txn made (rules.on_prepare here from txn (ballot_of ballot))) }
{
    if !is_above(ballot, known.promised) {
        return Ok(Made::holding(alloc, known.proposal));
    }
    let promise = QuorumMessage::Promise {
        txn,
        ballot,
        last: known.last,
    };
    Ok(Made {
        appended: Some(Record::Promised { txn, ballot }),
        sends: to_one(alloc, from, promise)?,
        ..Made::holding(alloc, known.proposal)
    })
}

/// A value is to be accepted: it is where its ballot isn't below what was promised, and that is said, also when it is asked again.
pub(crate) fn on_accept(
    alloc: Global,
    from: u8,
    txn: TxnId,
    ballot: Ballot,
    commits: bool,
    known: &Known,
) -> Result<Made, NoMemory>
    ensures { (here : rules.Here) → All IsInRange here.records → Knows here txn known.now
        → IfOk result (λ made. IsMade here.me txn made (rules.on_accept here from txn (ballot_of ballot) commits)) }
{
    if is_passed(ballot, known.promised) {
        return Ok(Made::holding(alloc, known.proposal));
    }
    let appended = if known.has_accepted(ballot, commits) {
        None
    } else {
        Some(Record::Accepted {
            txn,
            ballot,
            commits,
        })
    };
    Ok(Made {
        appended,
        sends: to_one(alloc, from, QuorumMessage::Accepted { txn, ballot })?,
        ..Made::holding(alloc, known.proposal)
    })
}

/// Whether the ballot is above this one, if there is one.
pub(crate) fn is_above(ballot: Ballot, other: Option<Ballot>) -> bool
    ensures { result ≡ law.is_above (ballot_of ballot) (option_map ballot_of other) }
{
    match other {
        Some(other) => other.is_below(ballot),
        None => true,
    }
}

/// Whether the ballot is below this one, if there is one.
pub(crate) fn is_passed(ballot: Ballot, other: Option<Ballot>) -> bool
    ensures { result ≡ law.is_passed (ballot_of ballot) (option_map ballot_of other) }
{
    match other {
        Some(other) => ballot.is_below(other),
        None => false,
    }
}
