// The grants that stand, in the order of their transactions.
ghost use Rattle.std.specs.Prelude.{◌≡◌, ◌<◌, None, Some, length, slice_index_or, is_some, vec_capacity, All, IsTrue};
ghost use Rattle.std.specs.Option.{option_map};
ghost use Rattle.pv_base.specs.Assignment.{is_same_txn, precedes};
ghost use Rattle.pv_locks.specs.LockTable.{place_for, with_renewed};
ghost use Rattle.pv_protocol.specs.Keyed.{AreInOrder, of_txn, with_one, without};
ghost use Rattle.pv_protocol.specs.State.{Grant};
ghost use Rattle.pv_protocol.specs.Tick.{older_grants};

use pv_base::{GrantId, TICKS, TxnId, Want};
use std::marker::Model;

/// What a transaction holds at a site, and since how many ticks.
#[derive(Debug, Drop)]
pub(crate) struct Held {
    /// The transaction.
    pub(crate) txn: TxnId,
    /// The grant's epoch and number.
    pub(crate) id: GrantId,
    /// The items, each shared or exclusive, ascending.
    pub(crate) wants: Vec<Want>,
    /// For how many ticks it stands.
    pub(crate) age: u8,
}

impl Model for Held {
    ghost use Rattle.pv_protocol.specs.State.{Grant};

    ghost Value = { Grant };

    ghost view = { λ held. record { txn = held.txn; id = held.id; wants = held.wants.items; age = held.age } };
}

/// The place of the transaction's grant, or where it would stand.
pub(crate) fn place_of(grants: &[Held], txn: TxnId) -> usize
    requires { AreInOrder (λ (grant : Grant). grant.txn) grants.now }
    ensures { result ≡ place_for txn grants.now }
{
    grants.partition_point(|grant| stands_before(grant, txn))
}

// Whether the grant stands before that of the transaction.
fn stands_before(grant: &Held, txn: TxnId) -> bool
    ensures { result ≡ precedes grant.now.txn txn }
{
    grant.txn < txn
}

/// The grant of the transaction, if one stands.
pub(crate) fn standing(grants: &[Held], txn: TxnId) -> Option<&Held>
    requires { AreInOrder (λ (grant : Grant). grant.txn) grants.now }
    ensures { option_map (λ grant. grant.now) result ≡ of_txn (λ (grant : Grant). grant.txn) txn grants.now }
{
    let place = place_of(grants, txn);
    let Some(grant) = grants.get(place) else {
        return None;
    };
    if is_of(grant, txn) { Some(grant) } else { None }
}

// Whether the grant is the transaction's.
fn is_of(grant: &Held, txn: TxnId) -> bool
    ensures { result ≡ is_same_txn txn grant.now.txn }
{
    grant.txn == txn
}

/// Adds the grant of a transaction that has none, in memory that was made for it.
pub(crate) fn add_grant(grants: &mut Vec<Held>, grant: Held)
    requires order { AreInOrder (λ (grant : Grant). grant.txn) grants.old.items }
    requires new { of_txn (λ (grant : Grant). grant.txn) grant.txn grants.old.items ≡ None }
    requires room { length grants.old.items < vec_capacity grants.old }
    ensures added { grants.new.items ≡ with_one (λ (grant : Grant). grant.txn) grant grants.old.items }
    ensures room { vec_capacity grants.new ≡ vec_capacity grants.old }
{
    let place = place_of(grants, grant.txn);
    grants.insert(place, grant).unwrap();
}

/// Takes out the grant of the transaction, if one stands.
pub(crate) fn remove_grant(grants: &mut Vec<Held>, txn: TxnId) -> Option<Held>
    requires { AreInOrder (λ (grant : Grant). grant.txn) grants.old.items }
    ensures found { result ≡ of_txn (λ (grant : Grant). grant.txn) txn grants.old.items }
    ensures left { grants.new.items ≡ without (λ (grant : Grant). grant.txn) txn grants.old.items }
    ensures room { vec_capacity grants.new ≡ vec_capacity grants.old }
{
    let place = place_of(grants, txn);
    if !is_at(grants, place, txn) {
        return None;
    }
    Some(grants.remove(place))
}

/// Gives the grant of the transaction, if one stands, the age 0.
pub(crate) fn renew_grant(grants: &mut [Held], txn: TxnId)
    requires { AreInOrder (λ (grant : Grant). grant.txn) grants.old }
    ensures { grants.new ≡ with_renewed grants.old (of_txn (λ (grant : Grant). grant.txn) txn grants.old) }
{
    let place = place_of(grants, txn);
    if !is_at(grants, place, txn) {
        return;
    }
    let grant = &mut grants[place];
    grant.age = 0;
}

// Whether the transaction's grant stands at this place, where it would stand.
fn is_at(grants: &[Held], place: usize, txn: TxnId) -> bool
    requires order { AreInOrder (λ (grant : Grant). grant.txn) grants.now }
    requires place { place ≡ place_for txn grants.now }
    ensures stands { result ≡ is_some (of_txn (λ (grant : Grant). grant.txn) txn grants.now) }
    ensures within { IsTrue result → place < length grants.now }
    ensures there { IsTrue result → (grant : Grant) → of_txn (λ (grant : Grant). grant.txn) txn grants.now ≡ Some (slice_index_or grants.now place grant) }
{
    match grants.get(place) {
        Some(grant) => is_of(grant, txn),
        None => false,
    }
}

/// Makes each grant a tick older.
pub(crate) fn age(grants: &mut [Held])
    requires { All (λ grant. grant.age < TICKS) grants.old }
    ensures { grants.new ≡ older_grants grants.old }
{
    for grant in grants {
        grant.age += 1;
    }
}
