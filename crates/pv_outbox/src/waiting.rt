// Which outputs wait for a transaction.
ghost use Rattle.std.specs.Prelude.{◌≡◌, ℕ, true, false, nat_eq, [], OnOk};
ghost use Rattle.std.specs.List.{list_any};
ghost use Rattle.pv_base.specs.Assignment.{is_same_txn};
ghost use Rattle.pv_base.specs.declared.txn.TxnId.{TxnId};
ghost use Rattle.pv_outbox.specs.Covers.{waits_for};

use indexmap::IndexMap;
use pv_base::{NoMemory, TxnId};
use std::alloc::Global;
use std::marker::Model;

/// By transaction, the places of the outputs that wait for it.
#[derive(Drop)]
pub(crate) struct Waiting {
    /// Where its memory comes from.
    alloc: Global,
    /// The places, in the order in which they came to wait.
    places: IndexMap<TxnId, Vec<usize>>,
}

impl Model for Waiting {
    ghost use Rattle.pv_outbox.specs.Covers.{Waiting};

    ghost Value = { Waiting };

    ghost view = { λ s. s.places.entries };
}

impl Waiting {
    // None waits.
    pub(crate) fn new(alloc: Global) -> Waiting
        ensures { result ≡ [] }
    {
        Waiting {
            alloc,
            places: IndexMap::new(alloc),
        }
    }

    // The places of those that wait for the transaction.
    pub(crate) fn places(&self, txn: TxnId) -> &[usize]
        ensures { (place : ℕ) → list_any (nat_eq place) result.now ≡ waits_for self.now txn place }
    {
        match self.places.get(&txn) {
            Some(places) => places,
            None => &[],
        }
    }

    // The output at this place waits for the transaction.
    pub(crate) fn add(&mut self, txn: TxnId, place: usize) -> Result<(), NoMemory>
        ensures more { (other : TxnId) (there : ℕ) → waits_for self.old other there ≡ true → waits_for self.new other there ≡ true }
        ensures added { OnOk result (waits_for self.new txn place ≡ true) }
    {
        if let Some(places) = self.places.get_mut(&txn) {
            return put_place(places, place);
        }
        let mut places = Vec::new(self.alloc);
        put_place(&mut places, place)?;
        self.places.insert(txn, places)?;
        Ok(())
    }

    // None waits for the transaction any more.
    pub(crate) fn remove(&mut self, txn: TxnId)
        ensures { (other : TxnId) (place : ℕ) → is_same_txn other txn ≡ false → waits_for self.new other place ≡ waits_for self.old other place }
    {
        let _ = self.places.swap_remove(&txn);
    }
}

// Puts the place behind these.
fn put_place(places: &mut Vec<usize>, place: usize) -> Result<(), NoMemory>
    ensures more { (there : ℕ) → list_any (nat_eq there) places.old.items ≡ true → list_any (nat_eq there) places.new.items ≡ true }
    ensures placed { OnOk result (list_any (nat_eq place) places.new.items ≡ true) }
{
    places.push(place)?;
    Ok(())
}
