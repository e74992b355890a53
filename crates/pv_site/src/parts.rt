// The parts of a site that is up, beside its log.
ghost use Rattle.std.specs.Prelude.{◌≡◌, ◌↔◌, false, []};
ghost use Rattle.pv_site.specs.SiteParts.{AreSound};

use crate::surplus::Surplus;
use pv_base::{Catalog, SiteId};
use pv_coord::Coord;
use pv_locks::Locks;
use pv_store::Store;
use std::alloc::Global;

// What a site has in memory, and what its records say.
#[derive(Drop)]
pub(crate) struct SiteParts {
    /// The site.
    pub(crate) me: SiteId,
    /// The items.
    pub(crate) catalog: Catalog,
    /// What it has granted.
    pub(crate) locks: Locks,
    /// The transactions that it coordinates.
    pub(crate) coord: Coord,
    /// What its records say.
    pub(crate) store: Store,
    /// By how many bytes the log is longer than the records make it, for the proof.
    pub(crate) surplus: Surplus,
}

impl SiteParts {
    // The grants and the entries of a site in this epoch are gone, as after a crash.
    pub(crate) fn forget(&mut self, alloc: Global, epoch: u32)
        requires sound { AreSound self.old }
        requires epoch { self.old.locks.epoch ≡ epoch }
        ensures me { self.new.me ≡ self.old.me }
        ensures catalog { self.new.catalog ≡ self.old.catalog }
        ensures store { self.new.store ≡ self.old.store }
        ensures surplus { self.new.surplus ≡ self.old.surplus }
        ensures epoch { self.new.locks.epoch ≡ epoch }
        ensures grants { self.new.locks.grants ≡ [] }
        ensures entries { self.new.coord.contents.entries ≡ [] }
        ensures sound { AreSound self.new }
    {
        self.locks = Locks::new(alloc, epoch, 0);
        self.coord = Coord::new(alloc, self.me, epoch, 0);
    }

    // Whether a grant or an entry stands.
    pub(crate) fn any_stands(&self) -> bool
        ensures { (result ≡ false) ↔ ((self.now.locks.grants ≡ []) × (self.now.coord.contents.entries ≡ [])) }
    {
        self.locks.any() || self.coord.any()
    }
}
