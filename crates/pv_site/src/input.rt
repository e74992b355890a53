// What a site is given to do, and what it answers.
ghost use Rattle.std.specs.Prelude.{◌≡◌, ℕ};
ghost use Rattle.pv_base.specs.Catalog.{Declared};
ghost use Rattle.pv_site.specs.Given.{IsGivenFor, input_in};
ghost use Rattle.pv_site.specs.Inputs.{IsInputFor};
ghost use Rattle.pv_site.specs.Values.{input_of};

use pv_ast::{Program, Reply};
use pv_base::{ItemId, SiteId, TxnId};
use pv_check::Plan;
use pv_tree::Poly;
use pv_wire::Message;

/// What a site is given to do.
#[derive(Debug, Drop)]
pub enum Input {
    /// A request: a transaction begins here, and this site coordinates it.
    Submit {
        /// What the transaction does.
        program: Program,
        /// What it wants of each site, as `check` answers it for the program.
        plan: Plan,
    },
    /// A message comes.
    Take {
        /// The site that sent it.
        from: SiteId,
        /// The message.
        message: Message,
    },
    /// Time has passed.
    Tick,
}

/// What a site is given to do, lent.
#[derive(Clone, Copy, Debug)]
pub enum Given<'a> {
    /// A request, as [`Input::Submit`].
    Submit {
        /// What the transaction does.
        program: &'a Program,
        /// What it wants of each site, as `check` answers it for the program.
        plan: &'a Plan,
    },
    /// A message comes.
    Take {
        /// The site that sent it.
        from: SiteId,
        /// The message.
        message: &'a Message,
    },
    /// Time has passed.
    Tick,
}

impl Input {
    /// The input, lent.
    pub fn lent(&self) -> Given<'_>
        ensures input { input_in result ≡ input_of self.now }
        ensures fits { (me : ℕ) (catalog : Declared) → IsInputFor me catalog self.now → IsGivenFor me catalog result }
    {
        match self {
            Input::Submit { program, plan } => Given::Submit { program, plan },
            Input::Take { from, message } => Given::Take {
                from: *from,
                message,
            },
            Input::Tick => Given::Tick,
        }
    }
}

/// A message and where it goes.
#[derive(Debug, Drop)]
pub struct Outgoing {
    /// The site that it goes to, which may be the one that sends it.
    pub to: SiteId,
    /// The message.
    pub message: Message,
}

/// What a step has to report.
#[derive(Debug, Drop)]
pub enum Note {
    /// The request has begun this transaction.
    Txn(TxnId),
    /// The transaction has committed.
    Commit {
        /// The transaction.
        txn: TxnId,
        /// The replies that it may have given, each once. One alone is certain.
        replies: Vec<Reply>,
    },
    /// The transaction is refused: it will never commit.
    Refuse {
        /// The transaction.
        txn: TxnId,
        /// Why.
        cause: Cause,
    },
    /// The journal would have this length with an outcome that came, above its limit. The outcome isn't recorded.
    Full(u64),
    /// No transaction number or no grant number is left in this epoch.
    Spent,
}

/// Why a transaction is refused.
#[derive(Clone, Copy, Debug, PartialEq, Eq)]
pub enum Cause {
    /// Another transaction holds an item that this one wants.
    Conflict {
        /// The item's site.
        site: SiteId,
        /// The item.
        item: ItemId,
        /// The transaction that holds it.
        holder: TxnId,
    },
    /// The values that were granted name this many outcomes together, more than [`pv_base::READ_NAMES`].
    OutcomeLimit(u32),
    /// The program requires an item to be certain, and it isn't.
    Uncertain {
        /// The item, the least such one.
        item: ItemId,
        /// How many outcomes its value depends on that the transaction's site doesn't know.
        outcomes: u32,
    },
    /// The coordinator had no grant or no vote of this site in time. It is the least such site.
    Expired(SiteId),
    /// At this site the grant doesn't stand any more under which its vote was asked for.
    GrantLost(SiteId),
    /// The journal of a site would have been too long with the promise or the commit.
    JournalFull {
        /// The site.
        site: SiteId,
        /// The length in bytes that the journal would have, above its limit.
        length: u64,
    },
}

/// What a site shows of an item.
#[derive(Clone, Copy, Debug)]
pub enum Shown<'a> {
    /// Nothing: the site is down.
    Down,
    /// Nothing: this transaction holds the item exclusively.
    Locked(TxnId),
    /// The item's value, as far as the site knows outcomes.
    Cases(&'a Poly<i64>),
}

/// What a step does beside what it changes in the site.
#[derive(Debug, Drop)]
pub struct Step {
    /// The messages that are sent, in order.
    pub sends: Vec<Outgoing>,
    /// What is reported, in order.
    pub notes: Vec<Note>,
    /// The transaction that has reached its lock point in this step, if one has.
    pub locked: Option<TxnId>,
}
