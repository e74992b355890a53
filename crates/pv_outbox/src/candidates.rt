// The places of the outputs that may be ready.
ghost use Rattle.std.specs.Prelude.{◌≡◌, ◌<◌, ◌≤◌, ℕ, Some, [], All, IfSome, MatchOption, OnOk, length, slice_get};
ghost use Rattle.std.specs.List.{Contains};

use pv_base::NoMemory;
use std::alloc::Global;
use std::cmp::Reverse;
use std::collections::BinaryHeap;
use std::marker::Model;

/// Places, of which the least is found first. A place may be there more than once.
#[derive(Drop)]
pub(crate) struct Candidates {
    /// The places, the least on top.
    places: BinaryHeap<Reverse<usize>>,
}

impl Model for Candidates {
    ghost use Rattle.std.specs.Prelude.{List, map, ℕ};
    ghost use Rattle.std.specs.BinaryHeap.{IsHeap, heap_items};
    ghost use Rattle.std.specs.Ordering.{nat_cmp};

    ghost Value = { List ℕ };

    ghost view = { λ s. map (λ place. place.0) (heap_items s.places) };

    ghost invariant = { λ s. IsHeap (λ x y. nat_cmp y.0 x.0) (heap_items s.places) };
}

impl Candidates {
    // There is none.
    pub(crate) fn new(alloc: Global) -> Candidates
        ensures { result ≡ [] }
    {
        Candidates {
            places: BinaryHeap::new(alloc),
        }
    }

    // The first place, which is the least, if there is one.
    pub(crate) fn first(&self) -> Option<usize>
        ensures first { MatchOption result (self.now ≡ []) (λ first. slice_get self.now 0 ≡ Some first) }
        ensures least { IfSome result (λ first. All (λ place. first ≤ place) self.now) }
    {
        match self.places.peek() {
            Some(place) => Some(place.0),
            None => None,
        }
    }

    // The place is one of them.
    pub(crate) fn put(&mut self, place: usize) -> Result<(), NoMemory>
        ensures more { (there : ℕ) → Contains self.old there → Contains self.new there }
        ensures placed { OnOk result (Contains self.new place) }
    {
        self.places.push(Reverse(place))?;
        Ok(())
    }

    // These places are among them.
    pub(crate) fn put_all(&mut self, places: &[usize]) -> Result<(), NoMemory>
        ensures more { (there : ℕ) → Contains self.old there → Contains self.new there }
        ensures placed { OnOk result (All (λ place. Contains self.new place) places.now) }
    {
        for place in places {
            self.put(*place)?;
        }
        Ok(())
    }

    // Drops the first place.
    pub(crate) fn drop_first(&mut self)
        ensures others { (there : ℕ) → Contains self.old there → (slice_get self.old 0 ≡ Some there → ⊥) → Contains self.new there }
        ensures fewer { 0 < length self.old → length self.new < length self.old }
    {
        let _ = self.places.pop();
    }
}
