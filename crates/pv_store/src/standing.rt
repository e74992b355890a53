// The items that stand at one transaction of the index.
ghost use Rattle.std.specs.Prelude.{◌≡◌, ◌==◌, ◌<◌, ◌≤◌, ◌||◌, ◌&&◌, not, ℕ, [], true, false, length, slice_index_or, IfOk, IfErr, OnOk, MatchOption};
ghost use Rattle.std.specs.List.{AllPairs, insert};
ghost use Rattle.pv_base.specs.declared.catalog.ItemId.{ItemId};
ghost use Rattle.pv_base.specs.declared.catalog.ItemId as declared;
ghost use Rattle.pv_store.specs.StandingHere.{is_one_of, places_in};

use pv_base::{ItemId, NoMemory};
use std::alloc::Global;
use std::marker::Model;

/// The items whose values name a transaction, and those that have a place beside them.
#[derive(Drop)]
pub(crate) struct Standing {
    // First those whose values name it, ascending, then the others. They are few, and a set would take more memory, and longer to make.
    items: Vec<ItemId>,
    // How many are of the first kind.
    named: usize,
}

impl Model for Standing {
    ghost use Rattle.std.specs.Prelude.{take, drop, length, ◌≤◌, ◌<◌};
    ghost use Rattle.std.specs.List.{AllPairs};
    ghost use Rattle.pv_base.specs.declared.catalog.ItemId.{ItemId};
    ghost use Rattle.pv_store.specs.StandingHere.{StandingHere};

    ghost Value = { StandingHere };

    ghost view = { λ s. record { named = take s.named s.items.items; others = drop s.named s.items.items } };

    ghost invariant = { λ s. record {
      within : s.named ≤ length s.items.items;
      ascending : AllPairs (λ (item later : ItemId). item.0 < later.0) (take s.named s.items.items);
    } };
}

impl Standing {
    /// None stands there.
    pub(crate) fn new(alloc: Global) -> Standing
        ensures named { result.named ≡ [] }
        ensures others { result.others ≡ [] }
    {
        Standing {
            items: Vec::new(alloc),
            named: 0,
        }
    }

    /// The items whose values name the transaction.
    pub(crate) fn named(&self) -> &[ItemId]
        ensures items { result.now ≡ self.now.named }
        ensures ascending { AllPairs (λ (item later : ItemId). item.0 < later.0) result.now }
    {
        let (named, _) = self.items.split_at(self.named);
        named
    }

    /// Makes a place for the item, if it has none.
    pub(crate) fn place(&mut self, item: ItemId) -> Result<(), NoMemory>
        ensures named { self.new.named ≡ self.old.named }
        ensures more { (there : ℕ) → is_one_of there (places_in self.old) ≡ true → is_one_of there (places_in self.new) ≡ true }
        ensures placed { OnOk result (is_one_of item.0 (places_in self.new) ≡ true) }
    {
        if !is_one_of(&self.items, item) {
            self.items.push(item)?;
        }
        Ok(())
    }

    /// The item, which has a place, is among those whose values name the transaction.
    pub(crate) fn touch(&mut self, item: ItemId)
        requires { is_one_of item.0 (places_in self.old) ≡ true }
        ensures more { (there : ℕ) → is_one_of there (places_in self.old) ≡ true → is_one_of there (places_in self.new) ≡ true }
        ensures named { (there : ℕ) → is_one_of there self.new.named ≡ (there == item.0 || is_one_of there self.old.named) }
    {
        let (named, others) = self.items.split_at(self.named);
        let Err(place) = place_among(named, item) else {
            return;
        };
        let Some(beside) = found_at(others, item) else {
            return;
        };
        let moved = self.items.remove(self.named + beside);
        self.items.insert(place, moved).unwrap();
        self.named += 1;
    }

    /// The item isn't among those whose values name the transaction. It keeps its place.
    pub(crate) fn leave(&mut self, item: ItemId)
        ensures more { (there : ℕ) → is_one_of there (places_in self.old) ≡ true → is_one_of there (places_in self.new) ≡ true }
        ensures named { (there : ℕ) → is_one_of there self.new.named ≡ (not (there == item.0) && is_one_of there self.old.named) }
    {
        let (named, _) = self.items.split_at(self.named);
        let Ok(place) = place_among(named, item) else {
            return;
        };
        let moved = self.items.remove(place);
        self.named -= 1;
        self.items.push_reserved(moved);
    }
}

// Where the item stands among these, which ascend, or else where it is to stand.
fn place_among(named: &[ItemId], item: ItemId) -> Result<usize, usize>
    requires { AllPairs (λ (item later : ItemId). item.0 < later.0) named.now }
    ensures there { IfOk result (λ place. (place < length named.now) × ((d : declared.ItemId) → slice_index_or named.now place d ≡ item)) }
    ensures apart { IfErr result (λ place. (place ≤ length named.now) × AllPairs (λ (item later : ItemId). item.0 < later.0) (insert named.now place item)) }
{
    named.binary_search(&item)
}

// Where the item is found among these.
fn found_at(items: &[ItemId], item: ItemId) -> Option<usize>
    ensures { MatchOption result (is_one_of item.0 items.now ≡ false) (λ place. (place < length items.now) × ((d : declared.ItemId) → slice_index_or items.now place d ≡ item)) }
{
    items.iter().position(|other| item.0 == other.0)
}

// Whether the item is one of these.
fn is_one_of(items: &[ItemId], item: ItemId) -> bool
    ensures { result ≡ is_one_of item.0 items.now }
{
    items.iter().any(|other| item.0 == other.0)
}
