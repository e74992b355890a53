// The locks of a site: grants to transactions, each of some items, shared or exclusive (two-phase locking: Eswaran, Gray, Lorie,
// Traiger, 1976).
ghost use Rattle.std.specs.Prelude.{◌≡◌, ◌+◌, ◌<◌, ◌≤◌, [], Ok, Err, length, nat_lt, is_some, if◌then◌else◌, IfOk, OnOk};
ghost use Rattle.std.specs.Option.{option_map};
ghost use Rattle.pv_base.specs.Answer.{Answers};
ghost use Rattle.pv_protocol.specs.Committed.{holder_of};
ghost use Rattle.pv_protocol.specs.Lock.{are_same_wants};
ghost use Rattle.pv_protocol.specs.State.{Grant};
ghost use Rattle.pv_locks.specs.GrantAnswer.{answer_to, cause_of, standing_answer, CanBeMade};
ghost use Rattle.pv_locks.specs.Holders.{IsIndex};
ghost use Rattle.pv_locks.specs.LockTable.{AreWantsAscending, grant_of, with_grant, without_grant, renewed, older};
ghost use Rattle.pv_locks.specs.Planned.{wants_held, new_grant, IsPlanned};

use crate::held::{Held, add_grant, age, remove_grant, renew_grant, standing};
use crate::holders::{
    Holder, add_holders, exclusive_holder, first_conflict, remove_holders, retain_lasting,
};
use crate::plan::{Change, GrantPlan, LockError};
use pv_base::{GrantId, ItemId, NEVER_GIVEN, TICKS, TxnId, Want};
use std::alloc::{AllocError, Global};
use std::marker::Model;

/// The grants that stand at a site: one of a transaction at most, and no two of one item but shared ones.
///
/// A grant stands for [`TICKS`] ticks from when it was made or last renewed. Each has a number, and none is given twice, so the site
/// begins with an epoch in which it gave none.
///
/// A transaction that can't have its locks is denied them at once and doesn't wait, so there is no deadlock.
///
/// The costs below are in comparisons; making and ending a grant also moves what stands behind it in two vectors.
#[derive(Debug, Drop)]
pub struct Locks {
    /// The epoch of the site.
    epoch: u32,
    /// The number of the next grant.
    next: u32,
    /// The grants, ascending by transaction.
    grants: Vec<Held>,
    /// Who holds which item, by item and then by transaction.
    holders: Vec<Holder>,
}

impl Model for Locks {
    ghost use Rattle.pv_locks.specs.LockTable.{LockTable};

    ghost Value = { LockTable };

    ghost use Rattle.pv_locks.specs.LocksView.{table_of, IsIndexed};

    ghost view = { table_of };

    ghost invariant = { IsIndexed };
}

impl Locks {
    /// No grants, in this epoch of the site. The first grant gets the number `next`.
    pub fn new(alloc: Global, epoch: u32, next: u32) -> Locks
        ensures { result ≡ record { epoch = epoch; next = next; grants = []; room = record { grants = 0; wants = 0 } } }
    {
        Locks {
            epoch,
            next,
            grants: Vec::new(alloc),
            holders: Vec::new(alloc),
        }
    }

    /// Plans a grant of these wants, which ascend by item. The grants stay as they are, and what was planned on them before can still be made.
    ///
    /// The answer is the first of these that fits:
    ///
    /// 1. `Standing`: the transaction has a grant of these very wants.
    /// 2. `Misfit`: it has a grant of others.
    /// 3. `Conflict`: another transaction has an item of these, and one of the two is exclusive. It is the least such item, with the least
    ///    transaction that holds it so.
    /// 4. The error `Spent`: no number is left.
    /// 5. `Fresh`: the grant can be made, and there is memory for it as long as the grants stay as they are.
    ///
    /// The error `NoMemory` may come in place of `Fresh`, and of no other. The cost is, for each want, logarithmic in the wants that are held, and linear in the
    /// transactions that hold its item.
    pub fn plan_grant(&mut self, txn: TxnId, wants: &[Want]) -> Result<GrantPlan, LockError>
        requires { AreWantsAscending wants.now }
        ensures answer { Answers (λ plan. answer_to self.old txn wants.now ≡ Ok plan) (λ cause. answer_to self.old txn wants.now ≡ Err cause)
            (λ plan. plan) cause_of result }
        ensures memory { result ≡ Err LockError.NoMemory → (change : Grant) × (answer_to self.old txn wants.now ≡ Ok (GrantPlan.Fresh change)) }
        ensures unchanged { self.new ≡ record self.old { room = self.new.room } }
        ensures planned { IfOk result (CanBeMade self.new) }
        ensures kept { (grant : Grant) → IsPlanned self.old grant → IsPlanned self.new grant }
    {
        if let Some(plan) = standing_answer(&self.grants, &self.holders, txn, wants) {
            return Ok(plan);
        }
        if self.next == NEVER_GIVEN {
            return Err(LockError::Spent);
        }
        match self.next_grant(txn, wants) {
            Ok(change) => Ok(GrantPlan::Fresh(change)),
            Err(_) => Err(LockError::NoMemory),
        }
    }

    // The next grant, with memory to make it.
    fn next_grant(&mut self, txn: TxnId, wants: &[Want]) -> Result<Change, AllocError>
        ensures unchanged { self.new ≡ record self.old { room = self.new.room } }
        ensures grant { IfOk result (λ change. change ≡ new_grant self.old txn wants.now) }
        ensures place { OnOk result (length self.new.grants < self.new.room.grants) }
        ensures places { OnOk result (wants_held self.new.grants + length wants.now ≤ self.new.room.wants) }
        ensures grants_room { self.old.room.grants ≤ self.new.room.grants }
        ensures wants_room { self.old.room.wants ≤ self.new.room.wants }
    {
        let wants = Vec::from_slice(*self.grants.allocator(), wants)?;
        self.grants.reserve(1)?;
        self.holders.reserve(wants.len())?;
        let id = GrantId {
            epoch: self.epoch,
            number: self.next,
        };
        let grant = Held {
            txn,
            id,
            wants,
            age: 0,
        };
        Ok(Change { grant })
    }

    /// Makes the grant, which was planned on the grants as they are now, and answers its number. Takes no memory. The cost is, for each want,
    /// logarithmic in the wants that are held.
    pub fn apply(&mut self, change: Change) -> GrantId
        requires { IsPlanned self.old change }
        ensures number { result ≡ change.id }
        ensures made { self.new ≡ record (with_grant self.old change) { next = self.old.next + 1 } }
    {
        let grant = change.grant;
        let id = grant.id;
        add_holders(&mut self.holders, grant.txn, &grant.wants);
        add_grant(&mut self.grants, grant);
        self.next += 1;
        id
    }

    /// Gives the transaction's grant the age 0 again, if it has one. Takes no memory. The cost is logarithmic in the grants.
    pub fn renew(&mut self, txn: TxnId)
        ensures { self.new ≡ renewed self.old txn }
    {
        renew_grant(&mut self.grants, txn);
    }

    /// Ends the transaction's grant, and reports whether it had one. Takes no memory. The cost is logarithmic in the grants and, for each want of the
    /// grant, in the wants that are held.
    pub fn release(&mut self, txn: TxnId) -> bool
        ensures ended { self.new ≡ without_grant self.old txn }
        ensures stood { result ≡ is_some (grant_of self.old txn) }
    {
        match remove_grant(&mut self.grants, txn) {
            Some(grant) => {
                remove_holders(&mut self.holders, txn, &grant.wants);
                true
            }
            None => false,
        }
    }

    /// Lets a tick pass: each grant is a tick older, and those that are [`TICKS`] ticks old then end. Takes no memory. The cost is linear in the
    /// grants and, times the logarithm of the grants, in the wants that are held.
    pub fn tick(&mut self)
        ensures { self.new ≡ older self.old }
    {
        age(&mut self.grants);
        retain_lasting(&mut self.holders, &self.grants);
        self.grants.retain(|grant| grant.age < TICKS);
    }

    /// The transaction's grant, if it has one. Takes no memory. The cost is logarithmic in the grants.
    pub fn holds(&self, txn: TxnId) -> Option<GrantId>
        ensures { result ≡ option_map (λ (grant : Grant). grant.id) (grant_of self.now txn) }
    {
        Some(standing(&self.grants, txn)?.id)
    }

    /// The items of the transaction's grant with their modes, ascending, if it has one. Takes no memory. The cost is logarithmic in the grants.
    pub fn wants(&self, txn: TxnId) -> Option<&[Want]>
        ensures { option_map (λ wants. wants.now) result ≡ option_map (λ (grant : Grant). grant.wants) (grant_of self.now txn) }
    {
        Some(standing(&self.grants, txn)?.wants.as_slice())
    }

    /// The transaction that holds the item exclusively, if there is one. Takes no memory. The cost is logarithmic in the wants that are held, and
    /// linear in the transactions that hold the item.
    pub fn holder(&self, item: ItemId) -> Option<TxnId>
        ensures { result ≡ holder_of self.now.grants item.0 }
    {
        exclusive_holder(&self.holders, item)
    }

    /// Whether a grant stands. Takes no memory.
    pub fn any(&self) -> bool
        ensures { result ≡ nat_lt 0 (length self.now.grants) }
    {
        !self.grants.is_empty()
    }
}

// What is answered where no grant can be made.
fn standing_answer(
    grants: &[Held],
    holders: &[Holder],
    txn: TxnId,
    wants: &[Want],
) -> Option<GrantPlan>
    requires { IsIndex grants.now holders.now }
    ensures { result ≡ standing_answer grants.now txn wants.now }
{
    if let Some(grant) = standing(grants, txn) {
        return Some(answer_with(grant, wants));
    }
    match first_conflict(holders, wants) {
        Some((item, holder)) => Some(GrantPlan::Conflict { item, holder }),
        None => None,
    }
}

// What is answered where the transaction has this grant.
fn answer_with(grant: &Held, wants: &[Want]) -> GrantPlan
    ensures { result ≡ (if are_same_wants wants.now grant.now.wants then GrantPlan.Standing grant.now.id else GrantPlan.Misfit) }
{
    if are_same(wants, &grant.wants) {
        GrantPlan::Standing(grant.id)
    } else {
        GrantPlan::Misfit
    }
}

// Whether these are the same items in the same modes.
fn are_same(wants: &[Want], others: &[Want]) -> bool
    ensures { result ≡ are_same_wants wants.now others.now }
{
    wants == others
}
