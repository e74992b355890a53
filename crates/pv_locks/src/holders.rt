// Who holds which item: the index of the grants by item.
ghost use Rattle.std.specs.Prelude.{◌≡◌, ◌+◌, ◌≤◌, ◌<◌, ◌==◌, ◌||◌, List, length, filter, find, vec_capacity, false};
ghost use Rattle.std.specs.Option.{option_map};
ghost use Rattle.pv_protocol.specs.Keyed.{AreInOrder, of_txn};
ghost use Rattle.pv_protocol.specs.State.{Grant};
ghost use Rattle.pv_locks.specs.Holders.{comes_before, AreInPlace, place_of_holder, with_holder, holder_by, with_holders, first_held, is_holder_in_the_way, lasts, conflict_over};

use crate::held::{Held, standing};
use pv_base::{ItemId, TICKS, TxnId, Want};

/// A transaction that holds an item.
#[derive(Clone, Copy, Debug, PartialEq, Eq)]
pub(crate) struct Holder {
    /// The item.
    pub(crate) item: ItemId,
    /// The transaction.
    pub(crate) txn: TxnId,
    /// Whether it may change the item.
    pub(crate) exclusive: bool,
}

// The place of the first holder that doesn't come before this one.
fn place_of(holders: &[Holder], holder: Holder) -> usize
    requires { AreInPlace holders.now }
    ensures { result ≡ place_of_holder holder holders.now }
{
    holders.partition_point(|other| comes_before(other, &holder))
}

// Whether the one holder stands before the other.
fn comes_before(holder: &Holder, other: &Holder) -> bool
    ensures { result ≡ comes_before holder.now other.now }
{
    (holder.item, holder.txn) < (other.item, other.txn)
}

/// Adds the transaction as the holder of what it wants, in memory that was made for it.
pub(crate) fn add_holders(holders: &mut Vec<Holder>, txn: TxnId, wants: &[Want])
    requires order { AreInPlace holders.old.items }
    requires room { length holders.old.items + length wants.now ≤ vec_capacity holders.old }
    ensures added { holders.new.items ≡ with_holders txn wants.now holders.old.items }
    ensures room { vec_capacity holders.new ≡ vec_capacity holders.old }
{
    let mut left = wants;
    while let Some((want, rest)) = left.split_last() {
        add_holder(holders, holder_by(txn, *want));
        left = rest;
    }
}

// Adds a holder, in memory that was made for it.
fn add_holder(holders: &mut Vec<Holder>, holder: Holder)
    requires order { AreInPlace holders.old.items }
    requires room { length holders.old.items < vec_capacity holders.old }
    ensures added { holders.new.items ≡ with_holder holder holders.old.items }
    ensures order { AreInPlace holders.new.items }
    ensures room { vec_capacity holders.new ≡ vec_capacity holders.old }
{
    let place = place_of(holders, holder);
    holders.insert(place, holder).unwrap();
}

/// Takes the transaction out as the holder of what it wants.
pub(crate) fn remove_holders(holders: &mut Vec<Holder>, txn: TxnId, wants: &[Want])
    requires order { AreInPlace holders.old.items }
    ensures left { (others : List Holder) → holders.old.items ≡ with_holders txn wants.now others → holders.new.items ≡ others }
    ensures room { vec_capacity holders.new ≡ vec_capacity holders.old }
{
    for want in wants {
        remove_holder(holders, holder_by(txn, *want));
    }
}

// Takes out a holder.
fn remove_holder(holders: &mut Vec<Holder>, holder: Holder)
    requires order { AreInPlace holders.old.items }
    ensures left { (others : List Holder) → holders.old.items ≡ with_holder holder others → holders.new.items ≡ others }
    ensures order { AreInPlace holders.new.items }
    ensures room { vec_capacity holders.new ≡ vec_capacity holders.old }
{
    let place = place_of(holders, holder);
    if place < holders.len() {
        holders.remove(place);
    }
}

// The transaction as the holder of what it wants.
fn holder_by(txn: TxnId, want: Want) -> Holder
    ensures { result ≡ holder_by txn want }
{
    Holder {
        item: want.item,
        txn,
        exclusive: want.exclusive,
    }
}

/// Keeps the holders whose grants last.
pub(crate) fn retain_lasting(holders: &mut Vec<Holder>, grants: &[Held])
    requires { AreInOrder (λ (grant : Grant). grant.txn) grants.now }
    ensures left { holders.new.items ≡ filter (λ holder. lasts (of_txn (λ (grant : Grant). grant.txn) holder.txn grants.now)) holders.old.items }
    ensures room { vec_capacity holders.new ≡ vec_capacity holders.old }
{
    holders.retain(|holder| match standing(grants, holder.txn) {
        Some(grant) => grant.age < TICKS,
        None => false,
    });
}

/// The first of the wants that can't be granted beside these holders, and the first that is in its way.
pub(crate) fn first_conflict(holders: &[Holder], wants: &[Want]) -> Option<(ItemId, TxnId)>
    requires { AreInPlace holders.now }
    ensures { option_map conflict_over result ≡ first_held holders.now wants.now }
{
    for want in wants {
        if let Some(holder) = first_in_the_way(holders, *want) {
            return Some((want.item, holder.txn));
        }
    }
    None
}

// The first holder that is in the way of the want.
fn first_in_the_way(holders: &[Holder], want: Want) -> Option<Holder>
    requires { AreInPlace holders.now }
    ensures { result ≡ find (is_holder_in_the_way want) holders.now }
{
    first_beside(of_item(holders, want.item), want.exclusive)
}

// The first of the holders of an item beside which it can't be held in this mode.
fn first_beside(holders: &[Holder], exclusive: bool) -> Option<Holder>
    ensures { result ≡ find (λ holder. exclusive || holder.exclusive) holders.now }
{
    holders
        .iter()
        .copied()
        .find(|holder| exclusive || holder.exclusive)
}

// The holders of the item.
fn of_item(holders: &[Holder], item: ItemId) -> &[Holder]
    requires { AreInPlace holders.now }
    ensures { result.now ≡ filter (λ holder. item.0 == holder.item.0) holders.now }
{
    let start = holders.partition_point(|holder| holder.item.0 < item.0);
    let (_, rest) = holders.split_at(start);
    let end = rest.partition_point(|holder| holder.item.0 <= item.0);
    let (found, _) = rest.split_at(end);
    found
}

/// The first transaction that holds the item exclusively.
pub(crate) fn exclusive_holder(holders: &[Holder], item: ItemId) -> Option<TxnId>
    requires { AreInPlace holders.now }
    ensures { result ≡ option_map (λ holder. holder.txn) (find (is_holder_in_the_way (record { item = item.0; exclusive = false })) holders.now) }
{
    let want = Want {
        item,
        exclusive: false,
    };
    Some(first_in_the_way(holders, want)?.txn)
}
