// The records of a decider as bytes: the kind in one byte, then the transaction, the ballot, and the value if there is one.
ghost use Rattle.std.specs.Prelude.{◌≡◌, ◌++◌, ◌<◌, Bool, length, if◌then◌else◌, MatchOption, IfOk, OnOk, OnErr};
ghost use Rattle.pv_base.specs.BigEndian.{big_endian};
ghost use Rattle.pv_bytes.specs.Reading.{HasTaken};
ghost use Rattle.pv_quorum.specs.Parts.{front_bytes};
ghost use Rattle.pv_quorum.specs.Spelling.{IsNoRecord, Spells, record_bytes, txn_in};
ghost use Rattle.pv_quorum.specs.Values.{ballot_of, record_of};

use crate::Ballot;
use pv_base::{MAX_SITES, NoMemory, SiteId, TxnId};
use pv_bytes::{Put, Short, Take};
use std::alloc::Global;

/// How many bytes a record has at most.
const MOST: usize = 16;

/// The kind of a record of a promise.
const PROMISED: u8 = 33;

/// The kind of a record of an accepted value.
const ACCEPTED: u8 = 34;

/// What a decider keeps for good.
#[derive(Clone, Copy, Debug, PartialEq, Eq)]
pub(crate) enum Record {
    /// It takes no part in a lower ballot of the transaction any more.
    Promised {
        /// The transaction.
        txn: TxnId,
        /// The ballot.
        ballot: Ballot,
    },
    /// It accepts the value in this ballot.
    Accepted {
        /// The transaction.
        txn: TxnId,
        /// The ballot.
        ballot: Ballot,
        /// The value: whether the transaction commits.
        commits: bool,
    },
}

impl Record {
    // The transaction that it is of.
    pub(crate) fn txn(&self) -> TxnId
        ensures { result ≡ txn_in (record_of self.now) }
    {
        match self {
            Record::Promised { txn, .. } => *txn,
            Record::Accepted { txn, .. } => *txn,
        }
    }
}

/// What every record begins with.
#[derive(Clone, Copy)]
struct Front {
    /// Its kind.
    kind: u8,
    /// Its transaction.
    txn: TxnId,
    /// Its ballot.
    ballot: Ballot,
}

/// The bytes of a record.
pub(crate) fn encode_record(alloc: Global, value: Record) -> Result<Vec<u8>, NoMemory>
    ensures { IfOk result (λ bytes. bytes.items ≡ record_bytes (record_of value)) }
{
    let mut put = Put::with_room(alloc, MOST)?;
    match value {
        Record::Promised { txn, ballot } => {
            put_front(&mut put, PROMISED, txn, ballot)?;
        }
        Record::Accepted {
            txn,
            ballot,
            commits,
        } => {
            put_front(&mut put, ACCEPTED, txn, ballot)?;
            put.u8(u8::from(commits))?;
        }
    }
    Ok(put.done())
}

// Writes what every record begins with.
fn put_front(put: &mut Put, kind: u8, txn: TxnId, ballot: Ballot) -> Result<(), NoMemory>
    ensures { OnOk result (put.new.bytes ≡ put.old.bytes ++ front_bytes kind txn (ballot_of ballot)) }
{
    put.u8(kind)?;
    put.u8(txn.site.0)?;
    put.u32(txn.epoch)?;
    put.u32(txn.number)?;
    put.u32(ballot.number)?;
    put.u8(ballot.decider)
}

/// The record whose bytes the content is, if it is a record's.
pub(crate) fn decode_record(content: &[u8]) -> Option<Record>
    ensures { MatchOption result (IsNoRecord content.now) (λ value. Spells (record_of value) content.now) }
{
    let mut take = Take::new(content);
    match take_front(&mut take) {
        Ok(front) => with_front(front, take.left()),
        Err(_) => None,
    }
}

// Reads what every record begins with.
fn take_front(take: &mut Take<'_>) -> Result<Front, Short>
    ensures taken { IfOk result (λ front. HasTaken (front_bytes front.kind front.txn (ballot_of front.ballot)) take.old take.new) }
    ensures short { OnErr result (length take.old.left < 15) }
{
    let kind = take.u8()?;
    let site = SiteId(take.u8()?);
    let epoch = take.u32()?;
    let number = take.u32()?;
    let ballot = Ballot {
        number: take.u32()?,
        decider: take.u8()?,
    };
    Ok(Front {
        kind,
        txn: TxnId {
            site,
            epoch,
            number,
        },
        ballot,
    })
}

// The record that begins so, if this is what else it has.
fn with_front(front: Front, value: &[u8]) -> Option<Record>
    ensures { MatchOption result (IsNoRecord (front_bytes front.kind front.txn (ballot_of front.ballot) ++ value.now))
        (λ found. Spells (record_of found) (front_bytes front.kind front.txn (ballot_of front.ballot) ++ value.now)) }
{
    let Front { kind, txn, ballot } = front;
    if txn.site.0 >= MAX_SITES {
        return None;
    }
    if kind == PROMISED && value.is_empty() {
        return Some(Record::Promised { txn, ballot });
    }
    if kind != ACCEPTED {
        return None;
    }
    let commits = truth_in(value)?;
    Some(Record::Accepted {
        txn,
        ballot,
        commits,
    })
}

// The truth value that the bytes are, if they are one.
fn truth_in(value: &[u8]) -> Option<bool>
    ensures { MatchOption result ((truth : Bool) → value.now ≡ big_endian 1 (if truth then 1 else 0) → ⊥) (λ truth. value.now ≡ big_endian 1 (if truth then 1 else 0)) }
{
    match value {
        [byte] if *byte <= 1 => Some(*byte == 1),
        _ => None,
    }
}
