// What a transaction is answered that asks for locks.
use crate::held::Held;
use pv_base::{GrantId, ItemId, TxnId};
use std::marker::Model;
use thiserror::Error;

/// A grant that can be made, with the memory that it takes. [`Locks::plan_grant`](crate::Locks::plan_grant) plans it, and
/// [`Locks::apply`](crate::Locks::apply) makes it.
#[derive(Debug, Drop)]
pub struct Change {
    /// The grant.
    pub(crate) grant: Held,
}

impl Model for Change {
    ghost use Rattle.pv_protocol.specs.State.{Grant};

    ghost Value = { Grant };

    ghost view = { λ change. change.grant };
}

/// What a transaction is answered that asks for locks.
#[derive(Debug, Drop)]
pub enum GrantPlan {
    /// The transaction has this grant, of the same items in the same modes.
    Standing(GrantId),
    /// The transaction has a grant of other items or modes.
    Misfit,
    /// The item is the least that can't be granted, and the holder the least transaction that is in the way: one of the two is
    /// exclusive.
    Conflict {
        /// The item.
        item: ItemId,
        /// The transaction that holds it.
        holder: TxnId,
    },
    /// The grant can be made.
    Fresh(Change),
}

/// Why a transaction that could be granted its locks gets no answer.
#[derive(Clone, Copy, Debug, PartialEq, Eq, Error)]
pub enum LockError {
    /// The number of the next grant would be [`NEVER_GIVEN`](pv_base::NEVER_GIVEN).
    #[error("no number is left for a grant")]
    Spent,
    /// There was no memory for the grant.
    #[error("no memory")]
    NoMemory,
}
