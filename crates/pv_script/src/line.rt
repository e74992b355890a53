// The lines that a run prints, as data. What a line is in the definition says `LineView`.
ghost use Rattle.std.specs.Prelude.{◌≡◌};
ghost use Rattle.pv_protocol.specs.LineText.{kind_text};
ghost use Rattle.pv_script.specs.LineView.{message_kind_of};

use pv_ast::Reply;
use pv_base::{Case, ItemId, SiteId, TxnId};

/// What a message is, without what it carries beside its transaction.
#[derive(Clone, Copy, Debug, PartialEq, Eq)]
pub enum MessageKind {
    /// A coordinator asks a participant for locks.
    Lock,
    /// A participant has granted them, and says what the items are.
    Granted,
    /// A participant hasn't granted them: another transaction holds one of the items.
    Denied,
    /// A coordinator asks a participant for its vote, and says what it is to write.
    Prepare,
    /// A participant's vote for the commit.
    Yes,
    /// A participant's vote against it.
    No,
    /// A site learns whether the transaction commits.
    Outcome,
    /// A site asks a coordinator whether the transaction commits.
    Ask,
}

impl MessageKind {
    /// What it is called in a line.
    pub fn name(self) -> &'static str
        ensures { result.now ≡ kind_text (message_kind_of self) }
    {
        match self {
            MessageKind::Lock => "lock",
            MessageKind::Granted => "granted",
            MessageKind::Denied => "denied",
            MessageKind::Prepare => "prepare",
            MessageKind::Yes => "yes",
            MessageKind::No => "no",
            MessageKind::Outcome => "outcome",
            MessageKind::Ask => "ask",
        }
    }
}

/// A line that a run prints.
#[derive(Debug, Drop)]
pub enum Line {
    /// A request has begun this transaction.
    Txn(TxnId),
    /// The transaction has committed.
    Commit {
        /// The transaction.
        txn: TxnId,
        /// The replies that it may have given, each once. One alone is certain.
        replies: Vec<Reply>,
    },
    /// The transaction is refused: another one holds an item that it wants.
    RefuseConflict {
        /// The transaction.
        txn: TxnId,
        /// The item's site.
        site: SiteId,
        /// The item.
        item: ItemId,
        /// The transaction that holds it.
        holder: TxnId,
    },
    /// The transaction is refused: the values that were granted to it name too many outcomes together.
    RefuseLimit {
        /// The transaction.
        txn: TxnId,
        /// How many outcomes they name.
        names: u32,
    },
    /// The transaction is refused: its program requires an item to be certain, and it isn't.
    RefuseUncertain {
        /// The transaction.
        txn: TxnId,
        /// The item, the least such one.
        item: ItemId,
        /// How many outcomes its value depends on that the transaction's site doesn't know.
        names: u32,
    },
    /// The transaction is refused: its coordinator had no grant or no vote of a participant in time.
    RefuseExpired {
        /// The transaction.
        txn: TxnId,
        /// The participant, the least that was silent.
        site: SiteId,
    },
    /// The transaction is refused: at a participant the grant doesn't stand any more under which its vote was asked for.
    RefuseLost {
        /// The transaction.
        txn: TxnId,
        /// The participant.
        site: SiteId,
    },
    /// The transaction is refused: a journal has no room for the promise or for the commit.
    RefuseFull {
        /// The transaction.
        txn: TxnId,
        /// The site of the journal.
        site: SiteId,
        /// The length in bytes that the journal would have, above its limit.
        length: u64,
    },
    /// A journal has no room for an outcome that came, or for the epoch of a start.
    Full {
        /// The site of the journal.
        site: SiteId,
        /// The length in bytes that the journal would have, above its limit.
        length: u64,
    },
    /// The site has no number left to give.
    Spent(SiteId),
    /// The site is down, so it takes nothing.
    Down(SiteId),
    /// The site is up, so it isn't started.
    Up(SiteId),
    /// The site has stopped.
    Stopped(SiteId),
    /// A write or a sync of the site's disk has failed, so the site is down.
    Fault(SiteId),
    /// The site has started.
    Started {
        /// The site.
        site: SiteId,
        /// The epoch that it is in from now on.
        epoch: u32,
    },
    /// No message of this number was sent.
    NoMessage(u64),
    /// A message that was sent.
    Sent {
        /// Its number. Messages are numbered from 0 in the order in which they are sent.
        number: u64,
        /// The site that sent it.
        from: SiteId,
        /// The site that it goes to.
        to: SiteId,
        /// What it is.
        kind: MessageKind,
        /// The transaction that it is of.
        txn: TxnId,
    },
    /// The transactions in the order of their lock points.
    Order(Vec<TxnId>),
    /// Those of the order that have committed.
    Committed(Vec<TxnId>),
    /// Those that are open: they haven't committed, and may still commit.
    OpenOnes(Vec<TxnId>),
    /// An item and its value.
    Item {
        /// The item.
        item: ItemId,
        /// Its value, as cases. One case with no literal is a sure value.
        cases: Vec<Case<i64>>,
    },
    /// An item that a transaction holds exclusively, so that it isn't readable.
    ItemLocked {
        /// The item.
        item: ItemId,
        /// The transaction that holds it.
        txn: TxnId,
    },
    /// An item whose site is down, so that it isn't readable.
    ItemDown(ItemId),
    /// The end of a report.
    End,
    /// The sums that all items may have together, each once. One alone is certain.
    Total(Vec<i128>),
    /// There is no sum: this item is held exclusively.
    TotalLocked(ItemId),
    /// There is no sum: an item's site is down, and this is the site.
    TotalDown(SiteId),
    /// There is no sum: the values of all items name this many outcomes together, more than may be.
    TotalLimit(u32),
}
