// The messages between sites: two-phase commit (Gray, 1978), with locks that are asked for before it.
ghost use Rattle.std.specs.Prelude.{◌≡◌};
ghost use Rattle.pv_format.specs.Message.{txn_of};
ghost use Rattle.pv_format.specs.MessageSpelling.{kind_number};
ghost use Rattle.pv_wire.specs.Values.{message_of};

use pv_base::{GrantId, ItemId, SiteId, TxnId, Want};
use pv_replay::are_sure;
use pv_tree::Read;

/// A message on its way.
#[derive(Debug, Drop)]
pub struct Envelope {
    /// The site that sends it.
    pub from: SiteId,
    /// The site that it goes to.
    pub to: SiteId,
    /// The message.
    pub message: Message,
}

/// What one site says to another about a transaction.
#[derive(Debug, Drop)]
pub enum Message {
    /// The coordinator asks for locks on items of the receiver.
    Lock {
        /// The transaction.
        txn: TxnId,
        /// The items, ascending, at least one.
        wants: Vec<Want>,
    },
    /// The participant has granted them.
    Granted {
        /// The transaction.
        txn: TxnId,
        /// The grant.
        grant: GrantId,
        /// The items, ascending, at least one, with their values now.
        values: Vec<Read>,
    },
    /// The participant has refused them.
    Denied {
        /// The transaction.
        txn: TxnId,
        /// The item that is held.
        item: ItemId,
        /// The transaction that holds it.
        holder: TxnId,
    },
    /// The coordinator asks the participant to promise to write these values.
    Prepare {
        /// The transaction.
        txn: TxnId,
        /// The grant that the participant gave.
        grant: GrantId,
        /// The new values, of ascending items.
        writes: Vec<Read>,
    },
    /// The participant has promised.
    Yes {
        /// The transaction.
        txn: TxnId,
    },
    /// The participant won't promise.
    No {
        /// The transaction.
        txn: TxnId,
        /// Why.
        cause: NoCause,
    },
    /// The coordinator says what the outcome is.
    Outcome {
        /// The transaction.
        txn: TxnId,
        /// Whether it commits.
        commits: bool,
    },
    /// The participant asks for the outcome.
    Ask {
        /// The transaction.
        txn: TxnId,
    },
}

/// Why a participant won't promise.
#[derive(Clone, Copy, Debug, PartialEq, Eq)]
pub enum NoCause {
    /// The grant doesn't stand any more.
    GrantLost,
    /// The journal with the record would have this length, above its limit.
    JournalFull(u64),
}

/// The number of the message's kind: from 1 to 8, or 18 or 20 where one of its values isn't sure.
pub fn kind_number(message: &Message) -> u8
    ensures { result ≡ kind_number (message_of message.now) }
{
    match message {
        Message::Lock { .. } => 1,
        Message::Granted { values, .. } => if are_sure(values) { 2 } else { 18 },
        Message::Denied { .. } => 3,
        Message::Prepare { writes, .. } => if are_sure(writes) { 4 } else { 20 },
        Message::Yes { .. } => 5,
        Message::No { .. } => 6,
        Message::Outcome { .. } => 7,
        Message::Ask { .. } => 8,
    }
}

/// The transaction that the message is about.
pub fn txn_of(message: &Message) -> TxnId
    ensures { result ≡ txn_of (message_of message.now) }
{
    match message {
        Message::Lock { txn, .. }
        | Message::Granted { txn, .. }
        | Message::Denied { txn, .. }
        | Message::Prepare { txn, .. }
        | Message::Yes { txn }
        | Message::No { txn, .. }
        | Message::Outcome { txn, .. }
        | Message::Ask { txn } => *txn,
    }
}
