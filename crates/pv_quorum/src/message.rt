// What deciders say to one another, what one is given to do, and what it makes of it.
ghost use Rattle.std.specs.Prelude.{◌≡◌};
ghost use Rattle.pv_quorum.specs.Values.{txn_in, txn_of};

use crate::Ballot;
use pv_base::TxnId;

/// A message from one decider to another.
#[derive(Clone, Copy, Debug, PartialEq, Eq)]
pub enum QuorumMessage {
    /// Asks to take no part in a lower ballot of the transaction any more.
    Prepare {
        /// The transaction.
        txn: TxnId,
        /// The ballot.
        ballot: Ballot,
    },
    /// Promises to take no part in a lower ballot, and tells the last vote.
    Promise {
        /// The transaction.
        txn: TxnId,
        /// The ballot.
        ballot: Ballot,
        /// The greatest ballot in which the sender accepted a value, and the value: whether the transaction commits.
        last: Option<(Ballot, bool)>,
    },
    /// Asks to accept a value.
    Accept {
        /// The transaction.
        txn: TxnId,
        /// The ballot.
        ballot: Ballot,
        /// The value: whether the transaction commits.
        commits: bool,
    },
    /// Says that the value of the ballot is accepted.
    Accepted {
        /// The transaction.
        txn: TxnId,
        /// The ballot.
        ballot: Ballot,
    },
}

/// What a decider is given to do.
#[derive(Clone, Copy, Debug, PartialEq, Eq)]
pub enum QuorumInput {
    /// To have an outcome decided: this one, unless another is chosen already.
    Propose {
        /// The transaction.
        txn: TxnId,
        /// Whether it is to commit.
        commits: bool,
    },
    /// To take a message.
    Take {
        /// The decider that it comes from: its number, below the count of deciders.
        from: u8,
        /// The message.
        message: QuorumMessage,
    },
}

/// A message, and the decider that it goes to.
#[derive(Clone, Copy, Debug, PartialEq, Eq)]
pub struct QuorumSend {
    /// The decider that it goes to.
    pub to: u8,
    /// The message.
    pub message: QuorumMessage,
}

/// What a decider makes of an input. At most one of the last three is there, and then nothing is sent.
#[derive(Debug, Drop)]
pub struct QuorumStep {
    /// The messages that go out, in order.
    pub sends: Vec<QuorumSend>,
    /// The transaction whose outcome is decided now, and whether it commits.
    pub decided: Option<(TxnId, bool)>,
    /// The length in bytes that the log would have with the step's record, above its limit. Nothing else comes of the step.
    pub full: Option<u64>,
    /// Whether no number is left for a ballot. Nothing else comes of the step.
    pub spent: bool,
}

impl QuorumMessage {
    // The transaction that it is of.
    pub(crate) fn txn(&self) -> TxnId
        ensures { result ≡ txn_in self.now }
    {
        match self {
            QuorumMessage::Prepare { txn, .. } => *txn,
            QuorumMessage::Promise { txn, .. } => *txn,
            QuorumMessage::Accept { txn, .. } => *txn,
            QuorumMessage::Accepted { txn, .. } => *txn,
        }
    }
}

impl QuorumInput {
    // The transaction that it is of.
    pub(crate) fn txn(&self) -> TxnId
        ensures { result ≡ txn_of self.now }
    {
        match self {
            QuorumInput::Propose { txn, .. } => *txn,
            QuorumInput::Take { message, .. } => message.txn(),
        }
    }
}
