// What a coordinator answers, and changes of it that are planned.
use crate::entry::Entry;
use crate::taken::Taken;
use pv_base::{SiteId, TxnId};
use pv_tree::Read;
use std::marker::Model;

/// A transaction that is about to begin. It is to be applied, or to be dropped, before anything else changes.
#[derive(Debug, Drop)]
pub struct BeginChange {
    /// The transaction.
    pub txn: TxnId,
    /// Its entry.
    pub(crate) entry: Entry,
}

impl Model for BeginChange {
    ghost use Rattle.std.specs.Prelude.{◌≡◌};
    ghost use Rattle.pv_coord.specs.Work.{Work};
    ghost use Rattle.pv_coord.specs.WorkCode.{work_code};

    ghost Value = { Work };

    ghost coded = { work_code };

    ghost view = { λ change. change.entry };

    ghost invariant = { λ change. change.entry.entry.txn ≡ change.txn };
}

/// A grant that is about to be taken. It is to be applied, or to be dropped, before anything else changes.
#[derive(Debug, Drop)]
pub struct GrantChange {
    /// The transaction.
    pub(crate) txn: TxnId,
    /// What it was granted.
    pub(crate) taken: Taken,
}

impl Model for GrantChange {
    ghost use Rattle.pv_coord.specs.Coordinator.{Grants};

    ghost Value = { Grants };

    ghost view = { λ change. record { txn = change.txn; taken = change.taken } };
}

/// What a grant is to the transaction that it was given to.
#[derive(Debug, Drop)]
pub enum GrantTaken {
    /// Nothing: no lock is asked for the transaction, or not of this site; or a grant of the site was taken before; or the items
    /// aren't those that were asked for.
    Ignored,
    /// It may be taken, and another participant hasn't answered.
    Wait(GrantChange),
    /// It may be taken, and is the last. [`Coord::program`](crate::Coord::program) lends the program that reads the values.
    Last {
        /// The values of all the grants, in the order of the sites and then of the items.
        reads: Vec<Read>,
        /// The change that takes the grant.
        change: GrantChange,
    },
}

/// What a vote is to the transaction that it is on.
#[derive(Clone, Copy, Debug, PartialEq, Eq)]
pub enum Vote {
    /// Nothing: no vote is asked on the transaction, or not of this site, or the site has voted.
    Ignored,
    /// It counts, and others haven't voted.
    Wait,
    /// It counts, and with it all have voted.
    Last,
}

/// A transaction that its coordinator waited for too long.
#[derive(Clone, Copy, Debug, PartialEq, Eq)]
pub struct Expiry {
    /// The transaction.
    pub txn: TxnId,
    /// The least participant whose grant or vote is missing.
    pub site: SiteId,
}
