// How a vote is asked for, and the promise that a yes is: it is recorded before it is sent (Gray, 1978).
ghost use Rattle.std.specs.Prelude.{◌≡◌, ◌∷◌, List, Some, false, MatchOption};
ghost use Rattle.pv_base.specs.Want as wanted;
ghost use Rattle.pv_format.specs.Range.{AreReadsInRange, IsTxnInRange};
ghost use Rattle.pv_locks.specs.LockTable.{grant_of};
ghost use Rattle.pv_protocol.specs.State.{Grant};
ghost use Rattle.pv_protocol.specs.Vote.{are_writes_of, on_prepare, with_writes};
ghost use Rattle.pv_site.specs.OnLog.{AreReady, StepsOnLog};
ghost use Rattle.pv_site.specs.SiteParts.{here_of};
ghost use Rattle.pv_site.specs.Written.{are_items_of};

use crate::answers::{nothing, sending};
use crate::appending::{Written, write};
use crate::parts::SiteParts;
use crate::{Step, StepError};
use pv_base::{GrantId, NoMemory, SiteId, TxnId, Want};
use pv_disk::Log;
use pv_locks::Locks;
use pv_part::{PrepareCase, on_prepare};
use pv_store::StoreError;
use pv_tree::Read;
use pv_wire::{Message, NoCause};
use std::alloc::Global;

// A coordinator asks for a vote.
pub(crate) fn take_prepare<L: Log>(
    log: &mut L,
    parts: &mut SiteParts,
    alloc: Global,
    from: SiteId,
    txn: TxnId,
    grant: GrantId,
    writes: &[Read],
) -> Result<Step, StepError>
    requires ready { AreReady L.model log.old parts.old }
    requires txn { IsTxnInRange txn }
    requires writes { AreReadsInRange 0 writes.now }
    ensures step { StepsOnLog L.model log.old log.new parts.old parts.new (on_prepare (here_of parts.old) from.0 txn grant writes.now) result }
    ensures intact { L.model.is_intact log.new }
{
    match on_prepare(&parts.locks, txn, from, grant, parts.store.prepared(txn)) {
        PrepareCase::Nothing => Ok(nothing(alloc)),
        PrepareCase::Again => Ok(sending(alloc, txn.site, Message::Yes { txn })?),
        PrepareCase::Lost => {
            let cause = NoCause::GrantLost;
            Ok(sending(alloc, txn.site, Message::No { txn, cause })?)
        }
        PrepareCase::Go => promise(log, parts, alloc, txn, writes),
    }
}

// The vote is asked for under the grant that stands.
fn promise<L: Log>(
    log: &mut L,
    parts: &mut SiteParts,
    alloc: Global,
    txn: TxnId,
    writes: &[Read],
) -> Result<Step, StepError>
    requires ready { AreReady L.model log.old parts.old }
    requires txn { IsTxnInRange txn }
    requires writes { AreReadsInRange 0 writes.now }
    requires stands { (standing : Grant) × (grant_of parts.old.locks txn ≡ Some standing) }
    ensures step { (standing : Grant) → grant_of parts.old.locks txn ≡ Some standing →
        StepsOnLog L.model log.old log.new parts.old parts.new (with_writes (here_of parts.old) standing writes.now) result }
    ensures intact { L.model.is_intact log.new }
{
    if !has_written(&parts.locks, txn, writes) {
        return Ok(nothing(alloc));
    }
    let change = match parts.store.plan_prepare(txn, writes) {
        Ok(change) => change,
        Err(StoreError::TooManyOutcomes(_)) => return Ok(nothing(alloc)),
        Err(StoreError::NoMemory) => return Err(StepError::NoMemory),
    };
    let promised = match sending(alloc, txn.site, Message::Yes { txn }) {
        Ok(promised) => promised,
        Err(NoMemory) => return Err(StepError::NoMemory),
    };
    match write(log, alloc, change.record()) {
        Ok(Written::Done) => {
            parts.store.apply(change);
            parts.locks.renew(txn);
            Ok(promised)
        }
        Ok(Written::Full(length)) => {
            let cause = NoCause::JournalFull(length);
            Ok(sending(alloc, txn.site, Message::No { txn, cause })?)
        }
        Err(error) => Err(error),
    }
}

// Whether the writes are of the exclusive items of the transaction's grant.
fn has_written(locks: &Locks, txn: TxnId, writes: &[Read]) -> bool
    ensures { (standing : Grant) → grant_of locks.now txn ≡ Some standing → result ≡ are_writes_of standing writes.now }
{
    match locks.wants(txn) {
        Some(wants) => are_written(wants, writes),
        None => false,
    }
}

// Whether the writes are of the exclusive items of these wants.
fn are_written(wants: &[Want], writes: &[Read]) -> bool
    ensures { result ≡ are_items_of wants.now writes.now }
{
    let mut left = writes;
    for want in wants {
        match behind(left, want) {
            Some(rest) => left = rest,
            None => return false,
        }
    }
    left.is_empty()
}

// The writes that are left once this want has its own, unless it hasn't.
fn behind<'a>(writes: &'a [Read], want: &Want) -> Option<&'a [Read]>
    ensures { (wants : List wanted.Want) → MatchOption result (are_items_of (want.now ∷ wants) writes.now ≡ false)
        (λ left. are_items_of wants left.now ≡ are_items_of (want.now ∷ wants) writes.now) }
{
    if !want.exclusive {
        return Some(writes);
    }
    match writes {
        [write, rest @ ..] if write.item == want.item => Some(rest),
        _ => None,
    }
}
