// The index by which the values are found that name a transaction.
ghost use Rattle.std.specs.Prelude.{◌≡◌, ◌<◌, ◌==◌, ◌||◌, ◌&&◌, not, ℕ, [], Some, true, false, length, slice_get, if◌then◌else◌, OnOk};
ghost use Rattle.std.specs.List.{AllPairs};
ghost use Rattle.pv_base.specs.Assignment.{is_same_txn};
ghost use Rattle.pv_base.specs.declared.catalog.ItemId as model;
ghost use Rattle.pv_base.specs.declared.txn.TxnId.{TxnId};
ghost use Rattle.pv_store.specs.Kept.{has_place, txns_of};
ghost use Rattle.pv_store.specs.StandingHere.{is_one_of};

use crate::standing::Standing;
use indexmap::IndexMap;
use pv_base::{ItemId, NoMemory, TxnId};
use std::alloc::Global;
use std::marker::Model;

/// By transaction, the items whose values name it, and beside them those whose values may name it once a planned change is applied. An item has
/// its place from when such a value is planned until the transaction's outcome is known, so that applying takes no memory.
#[derive(Drop)]
pub(crate) struct Dependents {
    alloc: Global,
    items: IndexMap<TxnId, Standing>,
}

impl Model for Dependents {
    ghost use Rattle.pv_store.specs.PlacesView.{Index, places_of, touched_of};

    ghost Value = { Index };

    ghost view = { λ s. record { places = places_of s.items.entries; touched = touched_of s.items.entries } };
}

impl Dependents {
    /// No item stands there.
    pub(crate) fn new(alloc: Global) -> Dependents
        ensures places { result.places ≡ [] }
        ensures touched { result.touched ≡ [] }
    {
        Dependents {
            alloc,
            items: IndexMap::new(alloc),
        }
    }

    /// The items whose values name the transaction, ascending.
    pub(crate) fn touched(&self, txn: TxnId) -> &[ItemId]
        ensures items { (item : ℕ) → is_one_of item result.now ≡ has_place self.now.touched txn item }
        ensures ascending { AllPairs (λ (item later : model.ItemId). item.0 < later.0) result.now }
    {
        match self.items.get(&txn) {
            Some(items) => items.named(),
            None => &[],
        }
    }

    /// How many transactions there are at which items stand, or stood.
    pub(crate) fn len(&self) -> usize
        ensures { result ≡ length self.now.places }
    {
        self.items.len()
    }

    /// The transaction at this place.
    pub(crate) fn txn_at(&self, place: usize) -> TxnId
        requires { place < length self.now.places }
        ensures { slice_get (txns_of self.now.places) place ≡ Some result }
    {
        let (txn, _) = self.items.get_index(place).unwrap();
        *txn
    }

    /// Makes a place for the item at one transaction.
    pub(crate) fn place(&mut self, txn: TxnId, item: ItemId) -> Result<(), NoMemory>
        ensures more { (other : TxnId) (there : ℕ) → has_place self.old.places other there ≡ true → has_place self.new.places other there ≡ true }
        ensures placed { OnOk result (has_place self.new.places txn item.0 ≡ true) }
        ensures touched { (other : TxnId) (there : ℕ) → has_place self.new.touched other there ≡ has_place self.old.touched other there }
    {
        if let Some(items) = self.items.get_mut(&txn) {
            return items.place(item);
        }
        let mut items = Standing::new(self.alloc);
        items.place(item)?;
        self.items.insert(txn, items)?;
        Ok(())
    }

    /// The item's value names the transaction from now on. It has a place there.
    pub(crate) fn touch(&mut self, txn: TxnId, item: ItemId)
        requires { has_place self.old.places txn item.0 ≡ true }
        ensures more { (other : TxnId) (there : ℕ) → has_place self.old.places other there ≡ true → has_place self.new.places other there ≡ true }
        ensures touched { (other : TxnId) (there : ℕ) → has_place self.new.touched other there ≡
            (if is_same_txn other txn then there == item.0 || has_place self.old.touched other there else has_place self.old.touched other there) }
    {
        let Some(items) = self.items.get_mut(&txn) else {
            return;
        };
        items.touch(item);
    }

    /// The item's value doesn't name the transaction any more. It keeps its place there.
    pub(crate) fn leave(&mut self, txn: TxnId, item: ItemId)
        ensures more { (other : TxnId) (there : ℕ) → has_place self.old.places other there ≡ true → has_place self.new.places other there ≡ true }
        ensures touched { (other : TxnId) (there : ℕ) → has_place self.new.touched other there ≡
            (if is_same_txn other txn then not (there == item.0) && has_place self.old.touched other there else has_place self.old.touched other there) }
    {
        let Some(items) = self.items.get_mut(&txn) else {
            return;
        };
        items.leave(item);
    }

    /// Takes all items away from the transaction.
    pub(crate) fn remove(&mut self, txn: TxnId)
        ensures places { (other : TxnId) (item : ℕ) → is_same_txn other txn ≡ false → has_place self.new.places other item ≡ has_place self.old.places other item }
        ensures touched { (other : TxnId) (item : ℕ) → has_place self.new.touched other item ≡ (if is_same_txn other txn then false else has_place self.old.touched other item) }
    {
        if self.items.is_empty() {
            return;
        }
        let _ = self.items.swap_remove(&txn);
    }
}
