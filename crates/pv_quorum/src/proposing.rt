// A decider as one that proposes: it asks for promises first, and then to accept its value.
ghost use Rattle.std.specs.Prelude.{◌≡◌, ◌<◌, ◌≤◌, IfOk};
ghost use Rattle.std.specs.Option.{option_map};
ghost use Rattle.pv_law_quorum.specs.Ballot as law;
ghost use Rattle.pv_law_quorum.specs.Decider as rules;
ghost use Rattle.pv_law_quorum.specs.Record as records;
ghost use Rattle.pv_quorum.specs.Knows.{IsProposed, Knows};
ghost use Rattle.pv_quorum.specs.Makes.{IsMade};
ghost use Rattle.pv_quorum.specs.Values.{ballot_of, vote_of};

use crate::counted::Counted;
use crate::known::{Known, Phase, Proposal};
use crate::made::{Made, to_others};
use crate::promising::is_passed;
use crate::record::Record;
use crate::{Ballot, QuorumMessage};
use pv_base::{NEVER_GIVEN, NoMemory, TxnId};
use std::alloc::Global;

/// A decider as one that proposes.
#[derive(Clone, Copy, Debug)]
pub(crate) struct Proposer {
    /// Its number.
    pub(crate) me: u8,
    /// How many deciders there are.
    pub(crate) count: u8,
}

impl Proposer {
    // A value is proposed: a ballot with the next number begins.
    pub(crate) fn on_propose(
        self,
        alloc: Global,
        txn: TxnId,
        commits: bool,
        known: &Known,
    ) -> Result<Made, NoMemory>
        requires { self.me < 5 }
        ensures { (setup : rules.Setup) (here : rules.Here) → setup.deciders ≡ self.count → here.me ≡ self.me → Knows here txn known.now
            → IfOk result (λ made. IsMade self.me txn made (rules.on_propose setup here txn commits)) }
    {
        let number = known.promised.map_or(0, |ballot| ballot.number);
        // The number after it would be the one that is never given.
        if number >= NEVER_GIVEN - 1 {
            return Ok(Made {
                spent: true,
                ..Made::holding(alloc, known.proposal)
            });
        }
        let ballot = Ballot {
            number: number + 1,
            decider: self.me,
        };
        let proposal = Proposal {
            ballot,
            commits,
            phase: Phase::Asking,
            counted: Counted::only(self.me),
            last: known.last,
        };
        Ok(Made {
            appended: Some(Record::Promised { txn, ballot }),
            sends: to_others(
                alloc,
                self.count,
                self.me,
                QuorumMessage::Prepare { txn, ballot },
            )?,
            ..Made::holding(alloc, Some(proposal))
        })
    }

    // A promise comes: it is counted in the first phase of its ballot, with the vote that it tells. With a majority the proposer accepts the
    // value itself, and asks the others to.
    pub(crate) fn on_promise(
        self,
        alloc: Global,
        from: u8,
        txn: TxnId,
        ballot: Ballot,
        last: Option<(Ballot, bool)>,
        known: &Known,
    ) -> Result<Made, NoMemory>
        requires me { self.me < 5 }
        requires from { from < 5 }
        requires count { self.count ≤ 5 }
        ensures { (setup : rules.Setup) (here : rules.Here) → setup.deciders ≡ self.count → here.me ≡ self.me → Knows here txn known.now
            → IfOk result (λ made. IsMade self.me txn made (rules.on_promise setup here from (ballot_of ballot) (option_map vote_of last) (rules.entry_of txn here.entries))) }
    {
        let Some(proposal) = known.proposal else {
            return Ok(Made::holding(alloc, None));
        };
        if !proposal.awaits(Phase::Asking, ballot, from) {
            return Ok(Made::holding(alloc, Some(proposal)));
        }
        let counted = Proposal {
            counted: proposal.counted.and(from),
            last: greater_vote(proposal.last, last),
            ..proposal
        };
        self.with_promise(alloc, txn, counted, known)
    }

    // A promise was counted.
    fn with_promise(
        self,
        alloc: Global,
        txn: TxnId,
        proposal: Proposal,
        known: &Known,
    ) -> Result<Made, NoMemory>
        requires me { self.me < 5 }
        requires count { self.count ≤ 5 }
        ensures { (setup : rules.Setup) (here : rules.Here) (entry : rules.Entry) → setup.deciders ≡ self.count → here.me ≡ self.me → Knows here txn known.now
            → IsProposed txn entry proposal → IfOk result (λ made. IsMade self.me txn made (rules.with_promise setup here entry)) }
    {
        if !proposal.counted.is_majority(self.count) {
            return Ok(Made::holding(alloc, Some(proposal)));
        }
        let ballot = proposal.ballot;
        if is_passed(ballot, known.promised) {
            return Ok(Made::holding(alloc, None));
        }
        let commits = proposal.last.map_or(proposal.commits, |vote| vote.1);
        let accept = QuorumMessage::Accept {
            txn,
            ballot,
            commits,
        };
        let accepting = Proposal {
            commits,
            phase: Phase::Accepting,
            counted: Counted::only(self.me),
            ..proposal
        };
        Ok(Made {
            appended: Some(Record::Accepted {
                txn,
                ballot,
                commits,
            }),
            sends: to_others(alloc, self.count, self.me, accept)?,
            ..Made::holding(alloc, Some(accepting))
        })
    }

    // A decider has accepted: it is counted in the second phase of its ballot. At a majority the value is decided.
    pub(crate) fn on_accepted(
        self,
        alloc: Global,
        from: u8,
        txn: TxnId,
        ballot: Ballot,
        known: &Known,
    ) -> Made
        requires from { from < 5 }
        requires count { self.count ≤ 5 }
        ensures { (setup : rules.Setup) (here : rules.Here) → setup.deciders ≡ self.count → here.me ≡ self.me → Knows here txn known.now
            → IsMade self.me txn result (rules.on_accepted setup here from (ballot_of ballot) (rules.entry_of txn here.entries)) }
    {
        let Some(proposal) = known.proposal else {
            return Made::holding(alloc, None);
        };
        if !proposal.awaits(Phase::Accepting, ballot, from) {
            return Made::holding(alloc, Some(proposal));
        }
        let counted = Proposal {
            counted: proposal.counted.and(from),
            ..proposal
        };
        self.with_accepted(alloc, txn, counted)
    }

    // An acceptance was counted.
    fn with_accepted(self, alloc: Global, txn: TxnId, proposal: Proposal) -> Made
        requires { self.count ≤ 5 }
        ensures { (setup : rules.Setup) (here : rules.Here) (entry : rules.Entry) → setup.deciders ≡ self.count → here.me ≡ self.me
            → IsProposed txn entry proposal → IsMade self.me txn result (rules.with_accepted setup here entry) }
    {
        if !proposal.counted.is_majority(self.count) {
            return Made::holding(alloc, Some(proposal));
        }
        Made {
            decided: Some((txn, proposal.commits)),
            ..Made::holding(alloc, None)
        }
    }
}

// The vote with the greater ballot; of two with the same ballot the first.
fn greater_vote(
    one: Option<(Ballot, bool)>,
    other: Option<(Ballot, bool)>,
) -> Option<(Ballot, bool)>
    ensures { option_map vote_of result ≡ law.greater (λ (vote : records.Vote). vote.ballot) (option_map vote_of one) (option_map vote_of other) }
{
    match (one, other) {
        (None, other) => other,
        (Some(vote), Some(other)) if vote.0.is_below(other.0) => Some(other),
        (one, _) => one,
    }
}
