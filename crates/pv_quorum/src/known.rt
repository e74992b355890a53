// What a decider knows of one transaction: what its records say, and what it proposes.
ghost use Rattle.std.specs.Prelude.{◌≡◌, ◌++◌, ◌<◌, [], ◌∷◌, List, All, Some, false};
ghost use Rattle.std.specs.Option.{option_map};
ghost use Rattle.pv_base.specs.declared.limits.TheConstants.{MAX_SITES};
ghost use Rattle.pv_base.specs.declared.txn.TxnId.{TxnId};
ghost use Rattle.pv_law_quorum.specs.Ballot as law;
ghost use Rattle.pv_law_quorum.specs.Record as records;
ghost use Rattle.pv_law_quorum.specs.Decider as rules;
ghost use Rattle.pv_quorum.specs.Knows.{AreValues, IsProposed, IsRecorded, phase_of};
ghost use Rattle.pv_quorum.specs.MemoryView.{nothing};
ghost use Rattle.pv_quorum.specs.Spelling.{IsInRange, txn_in};
ghost use Rattle.pv_quorum.specs.Values.{ballot_of, record_of, vote_of};

use crate::Ballot;
use crate::counted::Counted;
use crate::record::Record;

/// In which phase a proposal is.
#[derive(Clone, Copy, Debug, PartialEq, Eq)]
pub(crate) enum Phase {
    /// Promises are counted.
    Asking,
    /// Acceptances are counted.
    Accepting,
}

/// What a decider proposes for a transaction. It is in memory alone.
#[derive(Clone, Copy, Debug)]
pub(crate) struct Proposal {
    /// The ballot.
    pub(crate) ballot: Ballot,
    /// The value.
    pub(crate) commits: bool,
    /// The phase.
    pub(crate) phase: Phase,
    /// The deciders that were counted in it.
    pub(crate) counted: Counted,
    /// The greatest ballot among those that they told, with its value.
    pub(crate) last: Option<(Ballot, bool)>,
}

/// What a decider knows of a transaction.
#[derive(Clone, Copy, Debug)]
pub(crate) struct Known {
    /// The greatest ballot that a record of it names.
    pub(crate) promised: Option<Ballot>,
    /// The greatest ballot in which a value is recorded as accepted, and the value that was recorded first.
    pub(crate) last: Option<(Ballot, bool)>,
    /// Whether the other value is recorded in that ballot too. No decider asks for both; a message that was made otherwise may.
    pub(crate) both: bool,
    /// What it proposes, if it does.
    pub(crate) proposal: Option<Proposal>,
}

impl Proposal {
    // Whether it is in this phase of this ballot, and the decider wasn't counted in it.
    pub(crate) fn awaits(&self, phase: Phase, ballot: Ballot, from: u8) -> bool
        requires { from < 5 }
        ensures { (txn : TxnId) (entry : rules.Entry) → IsProposed txn entry self.now → result ≡ rules.awaits entry (phase_of phase) (ballot_of ballot) from }
    {
        self.phase == phase && ballot.is_same(self.ballot) && !self.counted.has(from)
    }
}

impl Known {
    // What is known of a transaction of which there are no records.
    pub(crate) fn nothing() -> Known
        ensures { result ≡ nothing }
    {
        Known {
            promised: None,
            last: None,
            both: false,
            proposal: None,
        }
    }

    // What is known with one record more, of the same transaction.
    pub(crate) fn and(self, entry: Record) -> Known
        ensures recorded { (entries : List records.Record) → All IsInRange entries → IsRecorded (txn_in (record_of entry)) entries self
            → IsRecorded (txn_in (record_of entry)) (entries ++ record_of entry ∷ []) result }
        ensures proposal { result.proposal ≡ self.proposal }
        ensures range { (txn_in (record_of entry)).site.0 < MAX_SITES → IsInRange (record_of entry) }
    {
        match entry {
            Record::Promised { ballot, .. } => Known {
                promised: greater_ballot(self.promised, ballot),
                ..self
            },
            Record::Accepted {
                ballot,
                commits,
                ..
            } => Known {
                promised: greater_ballot(self.promised, ballot),
                ..self.accepted(ballot, commits)
            },
        }
    }

    // What is known of the accepted values with this one more.
    fn accepted(self, ballot: Ballot, commits: bool) -> Known
        ensures values { (txn : TxnId) (entries : List records.Record) → All IsInRange entries → AreValues txn entries self.last self.both
            → AreValues txn (entries ++ records.value_accepted txn (ballot_of ballot) commits ∷ []) result.last result.both }
        ensures promised { result.promised ≡ self.promised }
        ensures proposal { result.proposal ≡ self.proposal }
    {
        match self.last {
            Some((top, value)) if !top.is_below(ballot) => Known {
                both: self.both || (ballot.is_same(top) && commits != value),
                ..self
            },
            _ => Known {
                last: Some((ballot, commits)),
                both: false,
                ..self
            },
        }
    }

    // Whether this value is recorded in this ballot, which isn't below the promised one.
    pub(crate) fn has_accepted(&self, ballot: Ballot, commits: bool) -> bool
        ensures { (txn : TxnId) (entries : List records.Record) → All IsInRange entries → IsRecorded txn entries self.now
            → law.is_passed (ballot_of ballot) (records.promised txn entries) ≡ false → result ≡ records.has_accepted entries txn (ballot_of ballot) commits }
    {
        match self.last {
            Some((top, value)) => ballot.is_same(top) && (commits == value || self.both),
            None => false,
        }
    }
}

/// The greater of the two ballots, if there is a first one.
fn greater_ballot(one: Option<Ballot>, other: Ballot) -> Option<Ballot>
    ensures { option_map ballot_of result ≡ law.greater (λ (ballot : law.Ballot). ballot) (option_map ballot_of one) (Some (ballot_of other)) }
{
    match one {
        Some(ballot) if !ballot.is_below(other) => Some(ballot),
        _ => Some(other),
    }
}
